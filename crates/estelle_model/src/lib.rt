//! What specifications mean. The meaning of a block is a function of its tree, over any state that can
//! be read, that takes effects and that keeps changes of records.
//!
//! It stands on `pascal_values` and `estelle_tree`; evaluator, compiler, machine and judge stand on it.
//! Here are the definitions, in `specs/`, and the types of what is computed.
#![tactic(auto)]

#[tactic(auto, using(crate::specs::declared::denoter::Denoter::the_lemmas))]
mod denoter;
mod effect;
mod event;
mod image;
mod job;
mod meaning;
mod ordinals;
mod place;
mod shared;

pub use denoter::{Denoter, Host, host_of, range_of};
pub use effect::{Effect, Out};
pub use estelle_tree::{Pair, Required, Wanted};
pub use event::{End, Event, Run};
pub use image::{Image, Interaction, Part};
pub use job::{Done, Guard, Job, Outcome};
pub use meaning::{
    Attribute, Heading, InteractionKind, InteractionPoint, Meaning, Passing, Role, Routine, Senders,
};
pub use ordinals::{greatest, has_value, least, value_at};
pub use place::{ActualParameters, Environment, Place};
pub use shared::{Statements, Type};
