//! Programs of accepted specifications.

ghost use Rattle.std.specs.Prelude.{◌≡◌, IfOk};
ghost use Rattle.estelle_model.specs.Subject.{subject};
ghost use Rattle.estelle_model_legality.specs.Instances.{LeadsToStates};

use accepted_states::accepted_lead_to_states;
use body_program::Program;
use spec_accept::Checked;
use std::alloc::{AllocError, Global};
use std::marker::Model;

/// The program of an accepted specification, seen as a program is.
pub struct AcceptedProgram<'a> {
    program: Program<'a>,
}

impl Drop for AcceptedProgram<'_> {
    fn drop(self) {
        let AcceptedProgram { program: _ } = self;
    }
}

impl<'a> Model for AcceptedProgram<'a> {
    ghost use Rattle.std.specs.Coded.{codes};
    ghost use Rattle.estelle_tree.specs.contracts.tree.specification.Spec as of_specs;
    ghost use Rattle.estelle_model.specs.Subject.{Subject};

    ghost Value = { Subject };

    ghost coded = { Prim.hlevel (codes, of_specs.the_row.coded) };

    ghost use Rattle.estelle_model_legality.specs.Instances.{LeadsToStates};

    ghost view = { λ p. p.program };

    ghost invariant = { λ p. LeadsToStates p.program };
}

impl<'a> AcceptedProgram<'a> {
    /// The error is want of memory.
    pub fn new(alloc: Global, checked: &'a Checked) -> Result<AcceptedProgram<'a>, AllocError>
        ensures { IfOk result (λ program. program ≡ subject checked.now.spec checked.now.names) }
    {
        accepted_lead_to_states();
        let program = Program::new(alloc, &checked.spec, &checked.names)?;
        Ok(AcceptedProgram { program })
    }

    /// The program itself.
    pub fn program(&self) -> &Program<'a>
        ensures same { result.now ≡ self.now }
        ensures leads { LeadsToStates self.now }
    {
        &self.program
    }
}
