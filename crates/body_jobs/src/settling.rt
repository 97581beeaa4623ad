//! Guards of which nothing has to be evaluated.

ghost use Rattle.std.specs.Prelude.{◌≡◌, ℕ, Some, IfSome};
ghost use Rattle.std.specs.Option.{option_copied};
ghost use Rattle.estelle_tree.specs.Paths.{Path};
ghost use Rattle.estelle_model.specs.declared.image.Image.{Image};
ghost use Rattle.estelle_model.specs.Subject.{Subject};
ghost use Rattle.estelle_model.specs.Firing as firing;
ghost use Rattle.estelle_model.specs.Asked as asked;
ghost use Rattle.body_jobs.specs.Settled as spec;

use crate::delays::at_once;
use body_program::Program;
use estelle_model::{Guard, Interaction, Part};
use estelle_model_answers::guards_are_answered;
use estelle_tree::Sequence;
use flat_transitions::{Transition, When};

/// Whether the instance is in one of the transition's states, or the transition names none.
pub fn is_in_state(transition: &Transition, state: Option<u32>) -> bool
    ensures { result ≡ firing.is_in_state transition.now.from state }
{
    match transition.from() {
        None => true,
        Some(states) => match state {
            None => false,
            Some(state) => states.has(state),
        },
    }
}

/// Whether this is the interaction that a `when` names.
fn is_named(when: &When, head: Option<&Interaction>) -> bool
    ensures { result ≡ asked.is_received (Some when.now) (option_copied head.entry) }
{
    match head {
        None => false,
        Some(head) => when.name().word.items() == head.name.items(),
    }
}

/// Whether a transition needs no interaction, or the head is the one that it names.
pub fn is_received(transition: &Transition, head: Option<&Interaction>) -> bool
    ensures { result ≡ asked.is_received transition.now.when (option_copied head.entry) }
{
    match transition.when() {
        None => true,
        Some(when) => is_named(when, head),
    }
}

/// Whether neither `provided` nor the delay is evaluated: the transition has none, or a timer runs in place of the delay.
fn is_bare(transition: &Transition, timed: bool) -> bool
    ensures { result ≡ spec.is_bare timed transition.now }
{
    if transition.provided().is_some() {
        return false;
    }
    timed || transition.delay().is_none()
}

fn settled_of(
    transition: &Transition,
    state: Option<u32>,
    head: Option<&Interaction>,
    timed: bool,
) -> Option<Guard>
    ensures { (s : Subject) → result ≡ spec.settled_on s (option_copied head.entry) timed state (Some transition.now) }
{
    if !is_in_state(transition, state) {
        return Some(Guard::Off);
    }
    if !is_received(transition, head) {
        return Some(Guard::Off);
    }
    if is_bare(transition, timed) {
        Some(at_once())
    } else {
        None
    }
}

fn settled_at(
    program: &Program,
    part: &Part,
    trans: u32,
    head: Option<&Interaction>,
    timed: bool,
) -> Option<Guard>
    ensures { result ≡ spec.settled program.now part.now trans (option_copied head.entry) timed }
{
    match program.transition(part.body, trans) {
        None => Some(Guard::Off),
        Some(transition) => settled_of(transition, part.state, head, timed),
    }
}

/// The guard of an instance's transition with a number, where nothing has to be evaluated for it: the transition is not enabled in the
/// state or by the head, or neither `provided` nor a delay is to be asked. It takes no memory, and the time to find
/// the state among those of the transition.
pub fn settled(
    program: &Program,
    part: &Part,
    trans: u32,
    head: Option<&Interaction>,
    timed: bool,
) -> Option<Guard>
    ensures settles { result ≡ spec.settled program.now part.now trans (option_copied head.entry) timed }
    ensures computed { (path : Path) (image : Image) (budget : ℕ) → spec.HasPart program.now image path part.now → IfSome result (λ answer. answer ≡ asked.guard_of_image program.now path image trans (option_copied head.entry) timed budget) }
    ensures answers { (path : Path) (image : Image) (budget : ℕ) → spec.HasPart program.now image path part.now → IfSome result (λ answer. asked.IsGuard program.now path image trans (option_copied head.entry) timed budget answer) }
{
    guards_are_answered();
    settled_at(program, part, trans, head, timed)
}
