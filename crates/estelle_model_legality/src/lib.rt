//! Legal situations: which instances, links, waiting interactions, pending firings and timers may stand together; that the
//! start and every event of a run leave them so; the jobs of pending firings; and that what is chosen may be selected.
//!
//! It stands on `estelle_model`. It has definitions, in `specs/`, and laws alone.
#![tactic(auto)]

mod laws;

pub use laws::{
    chosen_is_selected, events_keep_legal, pending_have_jobs, runs_are_legal, start_is_legal,
};
