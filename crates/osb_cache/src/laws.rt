//! Laws of caches that callers' proofs rest on, each as the contract of a function that does nothing.
ghost use Rattle.osb_cache.specs.Laws.{CachesStay, PinsStay, ChunksStay, DraftsStay, EvictsVictims};

/// What every call keeps.
pub fn caches_stay<C>()
    ensures law { CachesStay C }
{}

/// Which calls change pins.
pub fn pins_stay<C>()
    ensures law { PinsStay C }
{}

/// Which chunks entries have.
pub fn chunks_stay<C>()
    ensures law { ChunksStay C }
{}

/// Which calls change what is staged.
pub fn drafts_stay<C>()
    ensures law { DraftsStay C }
{}

/// Which entries leave.
pub fn evicts_victims<C>()
    ensures law { EvictsVictims C }
{}
