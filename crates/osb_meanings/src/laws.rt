//! A law of what recipes mean, as the contract of a function that does nothing.
ghost use Rattle.osb_meanings.specs.Laws.{MeaningsAreTrees};

/// What a recipe means is a tree, and no larger than one may be.
pub fn meanings_are_trees()
    ensures law { MeaningsAreTrees }
{}
