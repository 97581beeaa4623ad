//! Which role may send what.

ghost use Rattle.std.specs.Prelude.{◌≡◌};
ghost use Rattle.module_table.specs.Known as spec;

use crate::declared::Interaction;

/// Whether a role, by the place of its name, may send an interaction.
pub fn may_send(role: u32, interaction: &Interaction) -> bool
    ensures { result ≡ spec.may_send role interaction.now }
{
    let first = interaction.first;
    let second = interaction.second;
    (role == first.role && first.may_send) || (role == second.role && second.may_send)
}

/// Whether the role opposite to this one may send it.
pub fn may_receive(role: u32, interaction: &Interaction) -> bool
    ensures { result ≡ spec.may_receive role interaction.now }
{
    let first = interaction.first;
    let second = interaction.second;
    (role == first.role && second.may_send) || (role == second.role && first.may_send)
}
