use osb_board::Claim;
use osb_cache::{Look, Reserve};
use osb_recipe::Outcome;
use osb_tree::{Chunk, Key, Shared, TaskNo};

/// What a worker does to the shared state in one turn.
#[derive(Drop)]
pub enum Action {
    /// Takes a task that is ready.
    Claim,
    /// Asks for the outcome of a task that is done.
    Fetch(TaskNo),
    /// Looks for an entry of the task's marked keys, the last first, and pins it.
    Look(TaskNo),
    /// Asks for a chunk of the pinned entry, by its place from 0.
    Read(Key, usize),
    Unpin(Key),
    /// Asks for room for an entry of a size in bytes and so many chunks.
    Reserve(Key, u64, usize),
    /// Stages the next chunk.
    Put(Key, Shared<Chunk>),
    /// Makes an entry of what is staged.
    Commit(Key),
    /// Gives up what is staged.
    Drop(Key),
    /// Ends a task.
    Done(TaskNo, Outcome),
}

/// What an action is answered.
#[derive(Drop)]
pub enum Reply {
    Claimed(Claim),
    Fetched(Outcome),
    Looked(Look),
    Chunk(Shared<Chunk>),
    Reserved(Reserve),
    /// There is nothing to say.
    Plain,
}

/// Whether memory is refused at a step: to the action itself, or to the work behind its reply.
#[derive(Clone, Copy, Debug, PartialEq, Eq)]
pub enum Flag {
    Fine,
    ActRefused,
    WorkRefused,
}
