//! Laws that callers' proofs rest on, each as the contract of a function that does nothing.
ghost use Rattle.osb_stages.specs.Laws.{OnlyDirectoriesAreTakenOver};

/// What a node may be put in the place of.
pub fn only_directories_are_taken_over()
    ensures law { OnlyDirectoriesAreTakenOver }
{}
