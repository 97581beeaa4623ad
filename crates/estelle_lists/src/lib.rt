//! The list and box types of the whole repository: contracts see a list as its items and a box as
//! its value, so that trees and values made of them are plain data.
#![tactic(auto)]

mod boxed;
mod items;
mod sequence;

pub use boxed::Boxed;
pub use items::Items;
pub use sequence::{Sequence, SequenceMut};
