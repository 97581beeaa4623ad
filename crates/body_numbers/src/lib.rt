//! What the numbers in the instructions of code stand for: shapes, exports, interaction points and interactions.
//!
//! It stands on `estelle_model`. Each look-up takes constant time.
#![tactic(auto)]

mod numbers;

pub use numbers::{BodyNumbers, IpNumbers, Numbers};
