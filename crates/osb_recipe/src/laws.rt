//! Laws of recipes that callers' proofs rest on, each as the contract of a function that does nothing.
ghost use Rattle.osb_recipe.specs.Laws.{MeaningsStay, LastKeyIsTheFold, EqualKeys};

/// What interning keeps.
pub fn meanings_stay()
    ensures law { MeaningsStay }
{}

/// What the tree of a chain is.
pub fn last_key_is_the_fold()
    ensures law { LastKeyIsTheFold }
{}

/// Which recipes have one key.
pub fn equal_keys()
    ensures law { EqualKeys }
{}
