//! Outputs (ISO/IEC 9074: output).

ghost use Rattle.body_state.specs.Follows.{Follows};
ghost use Rattle.body_walker_blocks.specs.Walked as walked;

use crate::calls::value_arguments;
use crate::labels::exprs_of;
use crate::points::own_ip;
use crate::scope::Scope;
use body_actions::{output_at, types_received};
use body_state::Walk;
use body_values::Stop;
use estelle_model::{Environment, Meaning};
use estelle_tree::{Args, Name};
use std::alloc::Global;

/// The arguments, then the unit.
#[cycle(walk)]
pub fn output(
    scope: &Scope,
    alloc: Global,
    here: &Environment,
    walk: &mut Walk,
    ip: &Name,
    interaction: &Name,
    args: &Option<Args>,
) -> Result<(), Stop>
    ensures { Follows (walked.output scope.now here.now ip.now interaction.now args.now) walk.old result walk.new }
{
    let meaning = scope.meaning(interaction);
    let types = types_received(meaning);
    let given = value_arguments(scope, alloc, here, walk, types, exprs_of(args))?;
    walk.spend()?;
    let a = own_ip(scope, alloc, here, ip)?;
    match meaning {
        Meaning::Interaction(kind) => output_at(
            alloc,
            scope.bodies(),
            walk,
            &ip.word,
            &interaction.word,
            kind,
            given.values,
            a,
        ),
        _ => Err(Stop::Broken),
    }
}
