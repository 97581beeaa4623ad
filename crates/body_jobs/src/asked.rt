//! What jobs and guards ask about.

ghost use Rattle.std.specs.Prelude.{◌≡◌, [], option_map};
ghost use Rattle.std.specs.Option.{option_copied};
ghost use Rattle.estelle_model.specs.Computed.{values_of};
ghost use Rattle.estelle_model.specs.Subject.{initialization};
ghost use Rattle.body_state.specs.Bodies.{initialization_of};
ghost use Rattle.body_state.specs.InOrder.{InOrder, instance_in};

use body_state::{Initialization, ModuleBodies, part_at};
use estelle_model::{Interaction, Part};
use estelle_tree::{Path, SequenceMut};
use pascal_values::Values;
use std::alloc::Global;

/// The values of the interaction that is received, if one is.
pub fn received_values(alloc: Global, head: Option<Interaction>) -> Values
    ensures { result ≡ values_of head }
{
    match head {
        None => Values::none(alloc),
        Some(interaction) => {
            let Interaction {
                number: _,
                name: _,
                values,
            } = interaction;
            values
        }
    }
}

/// The values of the interaction that is received, if one is.
pub fn lent_values<'i>(head: Option<&'i Interaction>, none: &'i Values) -> &'i Values
    requires { none.now ≡ [] }
    ensures { result.now ≡ values_of (option_copied head.entry) }
{
    match head {
        None => none,
        Some(interaction) => &interaction.values,
    }
}

/// The initialization of the specification, if one is written.
pub fn initialization<'b, 't>(bodies: &'b ModuleBodies<'t>) -> Option<&'b Initialization<'t>>
    ensures { option_copied result ≡ option_map initialization_of (initialization bodies.now 0) }
{
    match bodies.get(0) {
        None => None,
        Some(body) => body.initialization.as_ref(),
    }
}

/// The body of the instance with a path, if it is there.
pub fn body_at(parts: &[Part], path: &Path) -> Option<u32>
    requires { InOrder parts.now }
    ensures { result ≡ option_map (λ i. i.body) (instance_in parts.now path.now) }
{
    match part_at(parts, path) {
        Some(part) => Some(part.body),
        None => None,
    }
}
