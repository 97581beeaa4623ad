//! The listing of a text.

use accepted_program::AcceptedProgram;
use body_code::listing;
use compiled_program::CompiledProgram;
use estelle_tree::Text;
use spec_accept::Checked;
use std::alloc::{AllocError, Global};
use test_texts::accepted;

fn listed(alloc: Global, checked: &Checked) -> Result<Text, AllocError> {
    let program = AcceptedProgram::new(alloc, checked)?;
    let compiled = CompiledProgram::new(alloc, checked, &program)?;
    listing(alloc, compiled.code())
}

/// Whether an accepted text is compiled to code with this listing.
pub fn is_compiled_to(alloc: Global, text: &[u8], wanted: &[u8]) -> bool {
    match accepted(alloc, text) {
        None => false,
        Some(checked) => match listed(alloc, &checked) {
            Ok(lines) => lines.items() == wanted,
            Err(_) => false,
        },
    }
}
