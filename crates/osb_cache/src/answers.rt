use osb_base::{Key, List, WorkerNo};
use osb_tree::Shared;

/// That a worker reads an entry, which stays until it is unpinned.
#[derive(Clone, Copy, Debug, PartialEq, Eq)]
pub struct Pin {
    pub worker: WorkerNo,
    pub key: Key,
}

/// That a worker fills an entry for which room is reserved.
#[derive(Clone, Copy, Debug, PartialEq, Eq)]
pub struct Ticket {
    pub worker: WorkerNo,
    pub key: Key,
}

/// Which key of a list was found, at which place of the list and with how many chunks, or that none was.
#[derive(Clone, Copy, Debug, PartialEq, Eq)]
pub enum Look {
    Hit {
        place: usize,
        key: Key,
        chunks: usize,
    },
    Miss,
}

/// That room is reserved, for which so many entries left, or why none is.
#[derive(Clone, Copy, Debug, PartialEq, Eq)]
pub enum Reserve {
    Room { evicted: usize },
    Already,
    TooLarge,
    Full,
}

/// An entry as it goes into a cache and comes out again.
#[derive(Drop)]
pub struct Stored<C> {
    pub key: Key,
    pub chunks: List<Shared<C>>,
}
