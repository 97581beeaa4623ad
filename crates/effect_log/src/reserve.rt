//! The room for a firing.

ghost use Rattle.std.specs.Prelude.{◌≡◌, ◌≤◌, ◌+◌, if◌then◌else◌, length, All, OnOk, IfOk};
ghost use Rattle.effect_log.specs.Rooms.{HasRoomForAll, HasRoomFor, SeesTheSame, NotesTheSame};
ghost use Rattle.effect_log.specs.Reserving.{StoresHaveRoom, NotesHaveRoom};

use crate::needs::Needs;
use crate::notes::Notes;
use crate::shared::Shared;
use estelle_model::{Done, Effect, Outcome};
use estelle_tree::PathRoom;
use std::alloc::{AllocError, Global};

/// At least so many rooms of this width, and no others.
fn make_rooms(
    alloc: Global,
    rooms: &mut Vec<PathRoom>,
    count: usize,
    width: usize,
) -> Result<(), AllocError>
    ensures count { OnOk result (count ≤ length rooms.new.items) }
    ensures wide { OnOk result (All (λ room. width ≤ room) rooms.new.items) }
{
    rooms.clear();
    while rooms.len() < count {
        rooms.push(PathRoom::of(alloc, width)?)?;
    }
    Ok(())
}

fn reserve_stores(shared: &mut Shared, needs: &Needs) -> Result<(), AllocError>
    ensures same { SeesTheSame shared.old shared.new }
    ensures room { OnOk result (StoresHaveRoom needs.now shared.new) }
{
    shared.tree.reserve(needs.instances)?;
    shared.links.reserve(needs.links)?;
    shared.queues.reserve(needs.outputs, needs.points)
}

fn reserve_notes(
    alloc: Global,
    notes: &mut Notes,
    needs: &Needs,
    drops: usize,
    effects: usize,
) -> Result<(), AllocError>
    ensures same { NotesTheSame notes.old notes.new }
    ensures room { OnOk result (NotesHaveRoom needs.now drops effects notes.new) }
{
    notes.dropped.clear();
    notes.log.clear();
    notes.points.clear();
    notes.outs.reserve(needs.outputs)?;
    notes.arrivals.reserve(needs.outputs)?;
    notes.drops.reserve(drops)?;
    notes.dropped.reserve(drops)?;
    notes.log.reserve(effects)?;
    notes.points.reserve(needs.points)?;
    make_rooms(alloc, &mut notes.rooms, needs.outputs, needs.widest)
}

/// At most so many interactions are dropped, where so many wait.
fn most_drops(needs: &Needs, waiting: usize) -> Result<usize, AllocError>
    ensures { IfOk result (λ drops. drops ≡ (if needs.now.removes then waiting + needs.now.outputs else 0)) }
{
    if !needs.removes {
        return Ok(0);
    }
    match waiting.checked_add(needs.outputs) {
        Some(drops) => Ok(drops),
        None => Err(AllocError),
    }
}

fn reserve_all(
    alloc: Global,
    shared: &mut Shared,
    effects: &[Effect],
    notes: &mut Notes,
) -> Result<(), AllocError>
    ensures same { SeesTheSame shared.old shared.new }
    ensures notes { NotesTheSame notes.old notes.new }
    ensures room { OnOk result (HasRoomForAll effects.now shared.new notes.new) }
{
    let needs = Needs::of(effects, shared.tree.depth())?;
    let drops = most_drops(&needs, shared.queues.total())?;
    reserve_stores(shared, &needs)?;
    reserve_notes(alloc, notes, &needs, drops, effects.len())
}

/// Makes the room in which `apply` puts what was done. What the shared state and the notes have stays.
pub fn reserve_for(
    alloc: Global,
    shared: &mut Shared,
    done: &Done,
    notes: &mut Notes,
) -> Result<(), AllocError>
    ensures same { SeesTheSame shared.old shared.new }
    ensures notes { NotesTheSame notes.old notes.new }
    ensures room { OnOk result (HasRoomFor done.now.outcome shared.new notes.new) }
{
    match &done.outcome {
        Outcome::Ran { image: _, effects } => reserve_all(alloc, shared, effects.as_slice(), notes),
        Outcome::Faulted(_) => reserve_all(alloc, shared, &[], notes),
    }
}
