//! Laws of stores that callers' proofs rest on, each as the contract of a function that does nothing.
ghost use Rattle.osb_store.specs.Laws.{StoresHaveOneText};

/// Which stores have the same text.
pub fn stores_have_one_text()
    ensures law { StoresHaveOneText }
{}
