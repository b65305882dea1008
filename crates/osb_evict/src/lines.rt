use osb_base::{Key, List};

/// What counts of an entry where room is made: when it was used last, and how many readers hold it.
#[derive(Clone, Copy, Debug, PartialEq, Eq)]
pub struct Line {
    pub key: Key,
    pub size: u64,
    pub used: u64,
    pub pins: u64,
}

/// Which entries leave, first the one that was used first, or that there is no room even without all that may leave.
#[derive(Debug, Drop)]
pub enum Victims {
    Full,
    Take(List<Key>),
}
