//! The links of interaction points: connections and attachments (ISO/IEC 9074).
#![tactic(auto)]

mod asked;
mod links;
mod pairs;
mod points;

pub use asked::LinkTest;
pub use links::{LinkAbsent, LinkTaken, Links};
