//! What every evaluator of jobs and guards shares around a block: what is asked about, guards of which nothing is evaluated, the
//! bounds of a delay from its values, what is come to, and who evaluates guards.
//!
//! It stands on `body_state` and `body_program`. It runs nothing, and knows neither trees nor codes.
#![tactic(auto)]

mod asked;
mod delays;
mod ends;
mod guards;
mod laws;
mod root;
mod settling;

pub use asked::{body_at, initialization, lent_values, received_values};
pub use delays::{at_once, from_both, from_one};
pub use ends::{answered, finish, nothing};
pub use guards::Guards;
pub use laws::jobs_may_be_fired;
pub use root::{root_image, root_part};
pub use settling::{is_in_state, is_received, settled};
