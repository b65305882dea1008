ghost use Rattle.std.specs.Prelude.{◌≡◌};
ghost use Rattle.osb_job.specs.Scripts.{word_of};

use osb_recipe::Outcome;
use osb_tree::{Key, TaskNo, WorkerNo};

/// How a task ended.
#[derive(Clone, Copy, Debug, PartialEq, Eq)]
pub enum Word {
    Tree,
    Fault,
    /// What it is built with has no tree.
    Blocked,
    NoMemory,
}

/// What happened in one turn: an action with its reply, in numbers and words alone.
#[derive(Clone, Copy, Debug, PartialEq, Eq)]
pub enum Event {
    Claim(TaskNo),
    /// No task waits any more.
    Over,
    Fetch(TaskNo, Word),
    Hit(Key),
    Miss,
    /// The place of the chunk, from 0.
    Read(Key, usize),
    Unpin(Key),
    /// How many entries left to make room.
    Room(Key, usize),
    Already(Key),
    TooLarge(Key),
    Full(Key),
    /// The place of the chunk, from 0.
    Put(Key, usize),
    Commit(Key),
    Drop(Key),
    Done(TaskNo, Word),
}

/// A line of the log: who did what.
#[derive(Clone, Copy, Debug, PartialEq, Eq)]
pub struct Entry {
    pub worker: WorkerNo,
    pub event: Event,
}

/// The word for an outcome.
pub fn word_of(outcome: &Outcome) -> Word
    ensures word { result ≡ word_of outcome.now }
{
    match outcome {
        Outcome::Tree(_) => Word::Tree,
        Outcome::Fault(..) => Word::Fault,
        Outcome::Blocked => Word::Blocked,
        Outcome::NoMemory => Word::NoMemory,
    }
}
