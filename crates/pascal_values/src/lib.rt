//! The values of Pascal (ISO 7185), their operations and their text: the base of all meaning.
//!
//! It stands on `estelle_lists`. Each operation gives its value or its one fault, and the text of a
//! value has one reading.
#![tactic(auto)]

mod arithmetic;
mod comparing;
mod digits;
mod failing;
mod fault;
#[tactic(auto, using(crate::specs::declared::value::Shape::the_lemmas, crate::specs::declared::value::Value::the_lemmas, crate::proofs::ShapeLemmas::within_out, crate::proofs::ShapeLemmas::each_within_apart))]
mod fitting;
mod laws;
mod members;
#[tactic(auto, using(crate::proofs::PlaceLemmas::stands_here))]
mod nesting;
mod ordinals;
mod reading;
mod sets;
mod value;
mod way;
#[tactic(auto, using(crate::specs::declared::value::Shape::the_lemmas, crate::proofs::ShapeLemmas::blank_out))]
mod whole;
mod words;
#[tactic(auto, using(crate::specs::declared::value::Value::the_lemmas, crate::proofs::TextLemmas::text_out, crate::proofs::TextLemmas::extends, crate::proofs::TextLemmas::extends_more))]
mod writing;

pub use arithmetic::{MAXINT, add, divide, modulo, mul, sub};
pub use comparing::compare;
pub use failing::ValueError;
pub use fault::Fault;
pub use fitting::{fits, position};
pub use laws::{
    chosen_members, one_reading, read_again, remainder_law, sets_are_given, told_by_members,
};
pub use members::Members;
pub use nesting::read_value;
pub use sets::{has, meet, minus, span, unite};
pub use value::{Relation, Shape, Value, Values};
pub use way::{find, part, replace};
pub use whole::{blank, copy};
pub use writing::write_value;
