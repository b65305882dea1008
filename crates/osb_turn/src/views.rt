//! What seats know. No value of these types is made: they are what contracts and proofs speak of.
use osb_base::WorkerNo;
use std::collections::LinkedList;

/// One turn: who played what, and the reply.
pub struct Entry<A, R> {
    pub worker: WorkerNo,
    pub action: A,
    pub reply: R,
}

/// How far a seat is.
pub enum Stage {
    /// It has the first turn, in which the state is brought home.
    Opening,
    Idle,
    /// It has this ticket.
    Waiting(u64),
    /// Its ticket is served, and it has the state.
    Holding(u64),
    /// Another seat took it in.
    Spent,
}

/// A seat that another one took in.
pub struct Joined<A, R> {
    pub worker: WorkerNo,
    pub seen: LinkedList<Entry<A, R>>,
    pub mine: LinkedList<Entry<A, R>>,
}

/// What a seat knows: the opening state, the history as far as it has seen it, and the entries of its worker.
pub struct View<S, A, R> {
    pub stage: Stage,
    pub worker: WorkerNo,
    pub opening: Option<S>,
    pub seen: LinkedList<Entry<A, R>>,
    pub mine: LinkedList<Entry<A, R>>,
    pub joined: LinkedList<Joined<A, R>>,
    /// The number of seats that were made, which seat 0 knows.
    pub made: u64,
}
