//! What is read of the shared state for an instance: its private part, where it is or as an image of its own, the interaction
//! that a transition finds at its queue, and the job of a pending firing, which has such an image; and what a firing did, put into
//! that state in the situation that a run so far leads to.
//!
//! It stands on `effect_log`, whose `Stands` says for which situation the shared state stands, and on `body_program`
//! for what bodies declare. An image is a copy: it takes the time of the instances at and below its own and of all links, and
//! the memory of those instances and of the links that they made. What is read where it is takes a reference in place of each instance.
#![tactic(auto)]

mod bare;
mod heads;
mod images;
mod jobs;
mod laws;
mod putting;

pub use bare::bare_shared;
pub use heads::{copied_head, found_head};
pub use images::{Private, image_of};
pub use jobs::{job_of, start_job};
pub use laws::parts_are_of_instances;
pub use putting::{RunSoFar, put_firing, put_start};
