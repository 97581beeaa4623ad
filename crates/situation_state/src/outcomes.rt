//! What a job came to.

ghost use Rattle.std.specs.Prelude.{◌≡◌};
ghost use Rattle.situation_state.specs.Firings.{failure_of};

use estelle_model::Outcome;
use pascal_values::Fault;

/// The fault that a job came to, if it faulted.
pub fn fault_in(outcome: &Outcome) -> Option<Fault>
    ensures { result ≡ failure_of outcome.now }
{
    match outcome {
        Outcome::Ran { .. } => None,
        Outcome::Faulted(kind) => Some(*kind),
    }
}
