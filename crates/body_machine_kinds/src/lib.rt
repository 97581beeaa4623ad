//! Kinds of what instructions take and leave; a code of good kinds is never stuck.
//!
//! It stands on `body_kinds`, which has the table of kinds, and on `body_machine`. `specs/` has what a machine has that goes on, and
//! the laws. No code is checked here.
#![tactic(auto)]

mod laws;

pub use laws::{
    good_kinds_are_never_stuck, kinded_codes_are_not_stuck, kinded_codes_go_on,
    legal_images_may_begin, started_are_not_stuck, true_guards_say_true, units_are_not_stuck,
};
