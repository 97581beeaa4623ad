//! What names mean where the names of `any` have values.

ghost use Rattle.std.specs.Prelude.{◌≡◌, IfOk};
ghost use Rattle.body_program.specs.Chosen.{chosen_over};

use estelle_model::Meaning;
use flat_transitions::Choice;
use meaning_table::Table;
use std::alloc::AllocError;

/// A table with the chosen values as constants, over the table without them.
pub fn with_choices<'t>(table: &'t Table<'_>, chosen: &[Choice]) -> Result<Table<'t>, AllocError>
    ensures { IfOk result (λ over. over ≡ chosen_over table.now chosen.now) }
{
    let mut over = table.over()?;
    for choice in chosen {
        let meaning = Meaning::Constant {
            value: choice.value(),
            host: choice.host(),
        };
        over.declare(choice.at(), meaning)?;
    }
    Ok(over)
}
