//! What a job makes of a reply.
ghost use Rattle.std.specs.Prelude.{◌≡◌, ◌<◌, ◌++◌, ◌∷◌, [], length, not};
ghost use Rattle.std.specs.List.{list_any};
ghost use Rattle.osb_recipe.specs.Plans.{IsSound};
ghost use Rattle.osb_job.specs.Scripts.{word_of, is_tree, is_no_memory};
ghost use Rattle.osb_tree.specs.Trees.{empty_tree};
ghost use Rattle.osb_tree.specs.Chunks.{chunks_of, AreOfATree};
ghost use Rattle.osb_job.specs.Jobs.{taken, fetched, gathered, begun, run_from, read, IsTaken, IsPlace, IsOf, HasTrees, IsWhole, Fits};
ghost use Rattle.osb_job.specs.Turns.{IsMade, Stores};

use crate::places::{dropping, no_memory, unpinning};
use crate::stages::{chain_at, deps_at, marked_at, place_behind, run_from, trees_of};
use crate::{Parts, Place, Reply, Setup};
use osb_base::Steps;
use osb_board::Claim;
use osb_cache::{Look, Reserve};
use osb_recipe::{Outcome, Plan};
use osb_tree::{Chunk, Key, List, Shared, TaskNo, Tree};
use std::alloc::Global;
use std::sync::ledger::Ledger;

/// Where a reply that fits takes a job that has asked.
pub(crate) fn taken<L: Ledger>(
    alloc: Global,
    plan: &Plan,
    place: Place,
    reply: Reply,
    steps: &mut Steps<L>,
) -> Place
    requires sound { IsSound plan.now }
    requires same { IsOf plan.now place }
    requires fits { Fits plan.now place reply }
    requires place { IsPlace place }
    ensures taken { IsTaken (taken plan.now place reply) steps.old steps.new result }
    ensures of_plan { IsOf plan.now result }
    ensures place { IsPlace result }
{
    match place {
        Place::Outside => claimed(alloc, plan, reply, steps),
        Place::Fetching { task, dep, got } => one_more(alloc, plan, task, dep, got, reply, steps),
        Place::Looking { setup } => looked(alloc, plan, setup, reply, steps),
        Place::Reading {
            setup,
            key,
            count,
            parts,
        } => match reply {
            Reply::Chunk(chunk) => read(alloc, setup, key, count, parts, chunk),
            _ => unreachable!(),
        },
        Place::Holding { setup, key, tree } => {
            let run = place_behind(chain_at(plan, setup.task), key);
            run_from(alloc, plan, setup, run, tree, steps)
        }
        Place::Unpinning { task, .. } | Place::Dropping { task, .. } => no_memory(task),
        Place::Ended => Place::Outside,
        Place::Gone | Place::Ending { .. } => unreachable!(),
        place => stored(alloc, plan, place, reply, steps),
    }
}

/// The same while the tree of a marked key is stored.
fn stored<L: Ledger>(
    alloc: Global,
    plan: &Plan,
    place: Place,
    reply: Reply,
    steps: &mut Steps<L>,
) -> Place
    requires stores { Stores place }
    requires same { IsOf plan.now place }
    requires fits { Fits plan.now place reply }
    requires place { IsPlace place }
    ensures taken { IsTaken (taken plan.now place reply) steps.old steps.new result }
    ensures of_plan { IsOf plan.now result }
    ensures place { IsPlace result }
{
    match place {
        Place::Reserving {
            setup,
            key,
            tree,
            run,
        } => match reply {
            Reply::Reserved(Reserve::Room { .. }) => filling(alloc, setup, key, tree, run),
            _ => run_from(alloc, plan, setup, run, tree, steps),
        },
        Place::Filling {
            setup,
            tree,
            run,
            ..
        } => run_from(alloc, plan, setup, run, tree, steps),
        Place::Putting {
            setup,
            key,
            tree,
            run,
            parts,
        } => Place::Filling {
            setup,
            key,
            tree,
            run,
            parts,
        },
        _ => unreachable!(),
    }
}

fn claimed<L: Ledger>(alloc: Global, plan: &Plan, reply: Reply, steps: &mut Steps<L>) -> Place
    requires sound { IsSound plan.now }
    requires fits { Fits plan.now Place.Outside reply }
    ensures taken { IsTaken (taken plan.now Place.Outside reply) steps.old steps.new result }
    ensures of_plan { IsOf plan.now result }
    ensures place { IsPlace result }
{
    match reply {
        Reply::Claimed(Claim::Task(task)) => {
            fetched(alloc, plan, task, List::new(Vec::new(alloc)), steps)
        }
        Reply::Claimed(Claim::Idle) => Place::Outside,
        Reply::Claimed(Claim::Over) => Place::Gone,
        _ => unreachable!(),
    }
}

/// One more outcome is fetched.
fn one_more<L: Ledger>(
    alloc: Global,
    plan: &Plan,
    task: TaskNo,
    dep: TaskNo,
    got: List<Outcome>,
    reply: Reply,
    steps: &mut Steps<L>,
) -> Place
    requires sound { IsSound plan.now }
    requires fits { Fits plan.now (Place.Fetching task dep got) reply }
    ensures taken { IsTaken (taken plan.now (Place.Fetching task dep got) reply) steps.old steps.new result }
    ensures of_plan { IsOf plan.now result }
    ensures place { IsPlace result }
{
    let Reply::Fetched(outcome) = reply else {
        unreachable!()
    };
    let mut got = got.into_vec();
    match got.push(outcome) {
        Ok(()) => fetched(alloc, plan, task, List::new(got), steps),
        Err(_) => no_memory(task),
    }
}

/// The next outcome is fetched, or all are.
fn fetched<L: Ledger>(
    alloc: Global,
    plan: &Plan,
    task: TaskNo,
    got: List<Outcome>,
    steps: &mut Steps<L>,
) -> Place
    requires { IsSound plan.now }
    ensures taken { IsTaken (fetched plan.now task got) steps.old steps.new result }
    ensures of_plan { IsOf plan.now result }
    ensures place { IsPlace result }
{
    match deps_at(plan, task).get(got.as_slice().len()) {
        Some(dep) => Place::Fetching {
            task,
            dep: *dep,
            got,
        },
        None => gathered(alloc, plan, task, got.as_slice(), steps),
    }
}

/// All outcomes are fetched: the task begins if each is a tree.
fn gathered<L: Ledger>(
    alloc: Global,
    plan: &Plan,
    task: TaskNo,
    got: &[Outcome],
    steps: &mut Steps<L>,
) -> Place
    requires { IsSound plan.now }
    ensures taken { IsTaken (gathered plan.now task got.now) steps.old steps.new result }
    ensures of_plan { IsOf plan.now result }
    ensures place { IsPlace result }
{
    if lacks_memory(got) {
        return no_memory(task);
    }
    if lacks_tree(got) {
        return Place::Ending {
            task,
            outcome: Outcome::Blocked,
        };
    }
    match trees_of(alloc, plan, deps_at(plan, task), got) {
        Ok(trees) => {
            let trees = List::new(trees);
            begun(alloc, plan, Setup { task, trees }, steps)
        }
        Err(_) => no_memory(task),
    }
}

fn lacks_memory(got: &[Outcome]) -> bool
    ensures { result ≡ list_any (λ outcome. is_no_memory (word_of outcome)) got.now }
{
    got.iter()
        .any(|outcome| matches!(outcome, Outcome::NoMemory))
}

fn lacks_tree(got: &[Outcome]) -> bool
    ensures { result ≡ list_any (λ outcome. not (is_tree (word_of outcome))) got.now }
{
    got.iter()
        .any(|outcome| !matches!(outcome, Outcome::Tree(_)))
}

/// An entry is looked for, if the task has marked keys.
fn begun<L: Ledger>(alloc: Global, plan: &Plan, setup: Setup, steps: &mut Steps<L>) -> Place
    requires { HasTrees plan.now setup }
    ensures taken { IsTaken (begun plan.now setup) steps.old steps.new result }
    ensures of_plan { IsOf plan.now result }
    ensures place { IsPlace result }
{
    if marked_at(plan, setup.task).is_empty() {
        run_all(alloc, plan, setup, steps)
    } else {
        Place::Looking { setup }
    }
}

/// The stages are run from the empty tree on.
fn run_all<L: Ledger>(alloc: Global, plan: &Plan, setup: Setup, steps: &mut Steps<L>) -> Place
    requires { HasTrees plan.now setup }
    ensures taken { IsTaken (run_from plan.now setup 0 empty_tree) steps.old steps.new result }
    ensures of_plan { IsOf plan.now result }
    ensures place { IsPlace result }
{
    match Tree::empty(alloc) {
        Ok(tree) => run_from(alloc, plan, setup, 0, tree, steps),
        Err(_) => no_memory(setup.task),
    }
}

fn looked<L: Ledger>(
    alloc: Global,
    plan: &Plan,
    setup: Setup,
    reply: Reply,
    steps: &mut Steps<L>,
) -> Place
    requires trees { HasTrees plan.now setup }
    requires fits { Fits plan.now (Place.Looking setup) reply }
    ensures taken { IsTaken (taken plan.now (Place.Looking setup) reply) steps.old steps.new result }
    ensures of_plan { IsOf plan.now result }
    ensures place { IsPlace result }
{
    match reply {
        Reply::Looked(Look::Hit { key, chunks, .. }) => Place::Reading {
            setup,
            key,
            count: chunks,
            parts: List::new(Vec::new(alloc)),
        },
        Reply::Looked(Look::Miss) => run_all(alloc, plan, setup, steps),
        _ => unreachable!(),
    }
}

/// One more chunk is read.
fn read(
    alloc: Global,
    setup: Setup,
    key: Key,
    count: usize,
    parts: List<Shared<Chunk>>,
    chunk: Shared<Chunk>,
) -> Place
    requires more { length parts < count }
    requires fits { length (parts ++ chunk ∷ []) ≡ count → AreOfATree (parts ++ chunk ∷ []) }
    ensures taken { IsMade (read setup key count (parts ++ chunk ∷ [])).place result }
    ensures place { IsPlace result }
{
    let mut chunks = parts.into_vec();
    if chunks.push(chunk).is_err() {
        return unpinning(setup.task, key);
    }
    if chunks.len() < count {
        let parts = List::new(chunks);
        return Place::Reading {
            setup,
            key,
            count,
            parts,
        };
    }
    match Tree::from_chunks(alloc, &chunks) {
        Ok(tree) => Place::Holding { setup, key, tree },
        Err(_) => unpinning(setup.task, key),
    }
}

/// There is room for the tree of a key.
fn filling(alloc: Global, setup: Setup, key: Key, tree: Tree, run: usize) -> Place
    requires { IsWhole tree }
    ensures taken { IsMade (Place.Filling setup key tree run (chunks_of tree)) result }
    ensures place { IsPlace result }
{
    match tree.all_chunks(alloc) {
        Ok(chunks) => {
            let parts = Parts::new(chunks);
            Place::Filling {
                setup,
                key,
                tree,
                run,
                parts,
            }
        }
        Err(_) => dropping(setup.task, key),
    }
}
