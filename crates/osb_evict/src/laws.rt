//! Laws of victims that callers' proofs rest on, each as the contract of a function that does nothing.
ghost use Rattle.osb_evict.specs.Laws.{RisingLinesAreQueued, FrontIsOne};

/// The queue of lines that rise.
pub fn rising_lines_are_queued()
    ensures law { RisingLinesAreQueued }
{}

/// How many answers there are.
pub fn front_is_one()
    ensures law { FrontIsOne }
{}
