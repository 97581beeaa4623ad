//! The code of accepted specifications.

ghost use Rattle.std.specs.Prelude.{IfOk};
ghost use Rattle.estelle_model.specs.Subject.{subject};
ghost use Rattle.estelle_cli.specs.Answers.{IsListing};

use accepted_program::AcceptedProgram;
use body_code::listing;
use compiled_program::CompiledProgram;
use estelle_tree::Text;
use spec_accept::Checked;
use std::alloc::{AllocError, Global};

/// The listing of the code to which the bodies of an accepted specification are compiled.
pub fn listed(alloc: Global, checked: &Checked) -> Result<Text, AllocError>
    ensures { IfOk result (IsListing (subject checked.now.spec checked.now.names)) }
{
    let program = AcceptedProgram::new(alloc, checked)?;
    let compiled = CompiledProgram::new(alloc, checked, &program)?;
    let text = listing(alloc, compiled.code())?;
    Ok(text)
}
