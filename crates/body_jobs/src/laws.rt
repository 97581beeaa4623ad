//! The law of jobs: its contract is the law, and it does nothing.

ghost use Rattle.body_jobs.specs.Jobs.{JobsMayBeFired};

/// Each job that meets the condition of a job may be fired.
pub fn jobs_may_be_fired()
    ensures { JobsMayBeFired }
{}
