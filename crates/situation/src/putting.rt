//! What a firing did, put into the situation that the run has come to.

ghost use Rattle.situation_state.specs.Firings.{MayFire, IsFired};
ghost use Rattle.situation.specs.Putting.{led_to};

use estelle_model::Done;
use run_history::History;
use situation_images::RunSoFar;
use situation_state::State;

/// The history of a run.
#[derive(Drop)]
struct Past<'a> {
    history: &'a History,
    budget: u32,
}

impl RunSoFar for Past<'_> {
    ghost leads_to = { λ past s. led_to s past.budget past.history.now.entries };
}

/// Puts what a firing did in the situation that the history leads to.
pub(crate) fn put_firing(state: &mut State, history: &History, done: Done)
    requires { MayFire (led_to state.old.program.now state.old.budget history.now.entries) state.old done }
    ensures { IsFired (led_to state.old.program.now state.old.budget history.now.entries) state.old state.new done }
{
    let past = Past {
        history: &*history,
        budget: state.budget,
    };
    state.fire(&past, done)
}
