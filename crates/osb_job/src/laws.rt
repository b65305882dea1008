//! Laws of jobs that callers' proofs rest on, each as the contract of a function that does nothing.
ghost use Rattle.osb_job.specs.Laws.{WantsWhatIsAllowed, WantsWhatIsNext, NextIsAllowed};

/// What a job may do.
pub fn wants_what_is_allowed()
    ensures law { WantsWhatIsAllowed }
{}

/// What a job does over a store that is true.
pub fn wants_what_is_next()
    ensures law { WantsWhatIsNext }
{}

/// What the script does over a store that is true.
pub fn next_is_allowed()
    ensures law { NextIsAllowed }
{}
