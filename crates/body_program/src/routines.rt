//! Blocks as routines.

ghost use Rattle.std.specs.Prelude.{◌≡◌, map, option_map, IfOk};
ghost use Rattle.estelle_model.specs.declared.meaning.Passing.TheVariants.{ByValue};
ghost use Rattle.estelle_model.specs.Subject.{of_block, of_init, initial_state};
ghost use Rattle.meaning_table.specs.Known.{meanings_of};
ghost use Rattle.body_state.specs.Bodies.{initialization_of};

use body_state::Initialization;
use body_table::local_types;
use estelle_model::{Meaning, Passing, Routine, Statements, Type};
use estelle_tree::{Block, Init, Items, Name, Sequence};
use meaning_table::Table;
use std::alloc::{AllocError, Global};

fn by_value(alloc: Global, types: &[Type]) -> Result<Items<Passing>, AllocError>
    ensures { IfOk result (λ passings. passings ≡ map ByValue types.now) }
{
    let mut passings = Items::new(alloc);
    for each in types {
        passings.push(Passing::ByValue(each.share()?))?;
    }
    Ok(passings)
}

/// A block as a routine whose parameters are those of the interaction that it receives.
pub fn routine_of<'a>(
    table: &Table,
    received: &[Type],
    block: &'a Block,
) -> Result<Routine<'a>, AllocError>
    ensures { IfOk result (λ routine. routine ≡ of_block (meanings_of table.now) received.now block.now) }
{
    Ok(Routine {
        parameters: by_value(table.alloc, received)?,
        locals: local_types(table, block.decls.items())?,
        result: None,
        body: Statements::of(&block.body),
    })
}

/// The state after an initialization.
fn initial_state(table: &Table, to: &Option<Name>) -> Option<u32>
    ensures { result ≡ initial_state (meanings_of table.now) to.now }
{
    match to {
        None => None,
        Some(name) => match table.meaning(name) {
            Meaning::State(number) => Some(*number),
            _ => None,
        },
    }
}

/// The initialization of a body, if one is written.
pub fn initialization<'a>(
    table: &Table,
    init: &'a Option<Init>,
) -> Result<Option<Initialization<'a>>, AllocError>
    ensures { IfOk result (λ i. i ≡ option_map initialization_of (option_map (of_init (meanings_of table.now)) init.now)) }
{
    match init {
        None => Ok(None),
        Some(init) => Ok(Some(Initialization {
            to: initial_state(table, &init.to),
            block: routine_of(table, &[], &init.block)?,
        })),
    }
}
