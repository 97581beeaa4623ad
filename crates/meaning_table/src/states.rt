//! The states that names of states and of state sets stand for (ISO/IEC 9074).

ghost use Rattle.std.specs.Prelude.{◌≡◌, ◌++◌, IfOk, OnOk};
ghost use Rattle.estelle_model.specs.Bodies as bodies;
ghost use Rattle.meaning_table.specs.Known.{meanings_of};

use crate::table::Table;
use estelle_model::Meaning;
use estelle_tree::{Items, Name, Sequence};
use std::alloc::AllocError;

fn push_all(numbers: &mut Items<u32>, more: &[u32]) -> Result<(), AllocError>
    ensures { OnOk result (numbers.new ≡ numbers.old ++ more.now) }
{
    for number in more {
        numbers.push(*number)?;
    }
    Ok(())
}

fn push_numbers(numbers: &mut Items<u32>, meaning: &Meaning) -> Result<(), AllocError>
    ensures { OnOk result (numbers.new ≡ numbers.old ++ bodies.numbers_of meaning.now) }
{
    match meaning {
        Meaning::State(number) => numbers.push(*number),
        Meaning::StateSet(more) => push_all(numbers, more.items()),
        _ => Ok(()),
    }
}

/// The numbers of the states that these names stand for.
pub fn states_named(table: &Table, names: &[Name]) -> Result<Items<u32>, AllocError>
    ensures { IfOk result (λ numbers. numbers ≡ bodies.states_named (meanings_of table.now) names.now) }
{
    let mut numbers = Items::new(table.alloc);
    for name in names {
        push_numbers(&mut numbers, table.meaning(name))?;
    }
    Ok(numbers)
}
