//! What is done, put into the situation after the events so far.

ghost use Rattle.estelle_model.specs.Runs.{situation_at};
ghost use Rattle.situation_state.specs.Firings.{MayFire, IsFired};

use estelle_model::{Done, Event};
use situation_images::RunSoFar;
use situation_state::State;

/// The first events of a trace.
#[derive(Drop)]
struct Judged<'a> {
    events: &'a [Event],
    count: usize,
    budget: u32,
}

impl RunSoFar for Judged<'_> {
    ghost leads_to = { λ judged s. situation_at s judged.budget judged.events.now judged.count };
}

/// Puts what a firing did after so many events.
pub(crate) fn put_event(state: &mut State, events: &[Event], count: usize, done: Done)
    requires { MayFire (situation_at state.old.program.now state.old.budget events.now count) state.old done }
    ensures { IsFired (situation_at state.old.program.now state.old.budget events.now count) state.old state.new done }
{
    let judged = Judged {
        events: &*events,
        count,
        budget: state.budget,
    };
    state.fire(&judged, done)
}
