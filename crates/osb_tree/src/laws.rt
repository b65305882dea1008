//! Laws of trees that callers' proofs rest on, each as the contract of a function that does nothing.
ghost use Rattle.osb_tree.specs.Laws.{PutSetsOnePath, PutAddsAPath, PutChangesSize, PutGivesATree, PutStaysWithinLimits, ParentIsADirectory, NextIsLeastAbove};
ghost use Rattle.osb_tree.specs.Chunks.{ChunksAreTheListing, ChunksAddUp, ChunksStandByNumber, ChunksGiveTheTree, FrontIsATree, MisfitIsOne};

/// What stands at a path after a put.
pub fn put_sets_one_path()
    ensures law { PutSetsOnePath }
{}

/// How many paths there are after a put.
pub fn put_adds_a_path()
    ensures law { PutAddsAPath }
{}

/// The size after a put.
pub fn put_changes_size()
    ensures law { PutChangesSize }
{}

/// What a put with no fault gives.
pub fn put_gives_a_tree()
    ensures law { PutGivesATree }
{}

/// How large what a put with no fault gives may be.
pub fn put_stays_within_limits()
    ensures law { PutStaysWithinLimits }
{}

/// What stands above a path of a tree.
pub fn parent_is_a_directory()
    ensures law { ParentIsADirectory }
{}

/// What the next path is.
pub fn next_is_least_above()
    ensures law { NextIsLeastAbove }
{}

/// What the chunks of a listing are together.
pub fn chunks_are_the_listing()
    ensures law { ChunksAreTheListing }
{}

/// What the chunks of a listing weigh together.
pub fn chunks_add_up()
    ensures law { ChunksAddUp }
{}

/// How many chunks there are, and which is which.
pub fn chunks_stand_by_number()
    ensures law { ChunksStandByNumber }
{}

/// What the chunks of a tree are chunks of.
pub fn chunks_give_the_tree()
    ensures law { ChunksGiveTheTree }
{}

/// What the first pairs of a tree's listing are.
pub fn front_is_a_tree()
    ensures law { FrontIsATree }
{}

/// At how many places chunks can fail to be those of a tree.
pub fn misfit_is_one()
    ensures law { MisfitIsOne }
{}
