//! Changes of the record of an instance.

ghost use Rattle.std.specs.Prelude.{◌≡◌, ◌+◌, ◌<◌, vec_len, slice_get, slice_set, Some, OnOk, OnErr};
ghost use Rattle.estelle_model.specs.declared.image.Part.{Part};
ghost use Rattle.body_state.specs.Alterations.{altered_part};

use body_values::put_below;
use estelle_model::Part;
use estelle_tree::{Items, Path};
use pascal_values::Value;
use std::alloc::AllocError;

/// A change of the record of an instance.
#[derive(Drop)]
pub enum Alteration<'w> {
    /// A part of a variable gets a value.
    Store {
        variable: u32,
        way: &'w [u32],
        value: Value,
    },
    /// A module variable holds a child, or is empty.
    Hold {
        variable: u32,
        held: Option<Path>,
    },
    Enter {
        state: u32,
    },
    /// The instance has had one more child.
    Bear,
}

fn hold(held: &mut Items<Option<Path>>, variable: u32, child: Option<Path>)
    ensures { held.new ≡ slice_set held.old variable child }
{
    let place = variable as usize;
    if place < held.len() {
        held.set(place, child);
    }
}

fn bear(births: &mut u64) -> Result<(), AllocError>
    ensures ok { OnOk result (births.new ≡ births.old + 1) }
    ensures err { OnErr result (births.new ≡ births.old) }
{
    match births.checked_add(1) {
        Some(more) => {
            *births = more;
            Ok(())
        }
        None => Err(AllocError),
    }
}

/// Alters the part of an instance. It fails where a count does not hold, and then leaves the part as it is.
pub fn alter(part: &mut Part, by: Alteration) -> Result<(), AllocError>
    ensures ok { OnOk result (part.new ≡ altered_part by.entry part.old) }
    ensures err { OnErr result (part.new ≡ part.old) }
{
    match by {
        Alteration::Store {
            variable,
            way,
            value,
        } => {
            put_below(&mut part.vars, variable, way, value);
            Ok(())
        }
        Alteration::Hold { variable, held } => {
            hold(&mut part.modvars, variable, held);
            Ok(())
        }
        Alteration::Enter { state } => {
            part.state = Some(state);
            Ok(())
        }
        Alteration::Bear => bear(&mut part.births),
    }
}

/// Alters the part at a place.
pub fn alter_at(parts: &mut Vec<Part>, place: usize, by: Alteration) -> Result<(), AllocError>
    requires { place < vec_len parts.old }
    ensures ok { (part : Part) → slice_get parts.old.items place ≡ Some part → OnOk result (parts.new.items ≡ slice_set parts.old.items place (altered_part by.entry part)) }
    ensures err { OnErr result (parts.new.items ≡ parts.old.items) }
{
    let part = &mut parts[place];
    alter(part, by)
}
