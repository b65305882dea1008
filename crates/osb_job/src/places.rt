ghost use Rattle.std.specs.Prelude.{◌≡◌, ◌↔◌, ◌∷◌, [], IsTrue, MatchOption};
ghost use Rattle.osb_recipe.specs.declared.outcomes.Outcome.TheVariants as outcomes;

use osb_recipe::Outcome;
use osb_tree::{Chunk, Key, List, Shared, TaskNo, Tree};
use std::collections::VecDeque;
use std::marker::Model;

/// A task whose dependencies all have trees.
#[derive(Drop)]
pub struct Setup {
    pub task: TaskNo,
    /// The trees that it is built with, by the keys of their recipes.
    pub trees: List<Option<Shared<Tree>>>,
}

/// The chunks that are still to be staged, in order. Contracts see the list of them.
#[derive(Drop)]
pub struct Parts {
    chunks: VecDeque<Shared<Chunk>>,
}

impl Model for Parts {
    ghost use Rattle.std.specs.Prelude.{List as Items};
    ghost use Rattle.osb_tree.specs.Trees.{Listing};

    ghost Value = { Items Listing };

    ghost view = { λ p. p.chunks.items };
}

impl Parts {
    pub fn new(chunks: Vec<Shared<Chunk>>) -> Self
        ensures chunks { result ≡ chunks.items }
    {
        Parts {
            chunks: VecDeque::from_vec(chunks),
        }
    }

    pub fn is_empty(&self) -> bool
        ensures empty { IsTrue result ↔ (self.now ≡ []) }
    {
        self.chunks.is_empty()
    }

    /// The first one, which leaves.
    pub fn next(&mut self) -> Option<Shared<Chunk>>
        ensures first { MatchOption result ((self.old ≡ []) × (self.new ≡ [])) (λ chunk. self.old ≡ chunk ∷ self.new) }
    {
        self.chunks.pop_front()
    }
}

/// What a worker is at.
#[derive(Drop)]
pub enum Place {
    /// Between tasks.
    Outside,
    /// Behind the last task, or left for want of memory.
    Gone,
    /// The outcomes of a task's dependencies are fetched: these so far, and this one next.
    Fetching {
        task: TaskNo,
        dep: TaskNo,
        got: List<Outcome>,
    },
    /// An entry of the task's marked keys is looked for.
    Looking {
        setup: Setup,
    },
    /// A pinned entry of so many chunks is read: these so far.
    Reading {
        setup: Setup,
        key: Key,
        count: usize,
        parts: List<Shared<Chunk>>,
    },
    /// All of a pinned entry is read: it is this tree.
    Holding {
        setup: Setup,
        key: Key,
        tree: Tree,
    },
    /// The tree of a marked key is made, and so many stages of the chain are run.
    Reserving {
        setup: Setup,
        key: Key,
        tree: Tree,
        run: usize,
    },
    /// There is room for the tree, and these of its chunks are still to be staged.
    Filling {
        setup: Setup,
        key: Key,
        tree: Tree,
        run: usize,
        parts: Parts,
    },
    /// The same where one chunk is handed out to be staged.
    Putting {
        setup: Setup,
        key: Key,
        tree: Tree,
        run: usize,
        parts: Parts,
    },
    /// Memory was refused while an entry is pinned.
    Unpinning {
        task: TaskNo,
        key: Key,
    },
    /// Memory was refused while an entry is staged.
    Dropping {
        task: TaskNo,
        key: Key,
    },
    /// The task has its outcome.
    Ending {
        task: TaskNo,
        outcome: Outcome,
    },
    /// The outcome is handed out.
    Ended,
}

/// A task ends for want of memory.
pub(crate) fn no_memory(task: TaskNo) -> Place
    ensures { result ≡ Place.Ending task outcomes.NoMemory }
{
    Place::Ending {
        task,
        outcome: Outcome::NoMemory,
    }
}

/// A pinned entry is given up for want of memory.
pub(crate) fn unpinning(task: TaskNo, key: Key) -> Place
    ensures { result ≡ Place.Unpinning task key }
{
    Place::Unpinning { task, key }
}

/// What is staged is given up for want of memory.
pub(crate) fn dropping(task: TaskNo, key: Key) -> Place
    ensures { result ≡ Place.Dropping task key }
{
    Place::Dropping { task, key }
}
