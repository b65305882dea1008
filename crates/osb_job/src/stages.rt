//! The stages that a job runs by itself.
ghost use Rattle.std.specs.Prelude.{◌≡◌, ◌≤◌, IfOk, length, drop};
ghost use Rattle.osb_recipe.specs.Plans.{IsSound, has_key};
ghost use Rattle.osb_job.specs.Scripts.{chain_at, marked_at, deps_at};
ghost use Rattle.osb_job.specs.Jobs.{run_from, trees_of, place_behind, IsTaken, HasTrees, IsOf, IsPlace, IsWhole};
ghost use Rattle.osb_job.specs.Turns.{IsMade};

use crate::places::no_memory;
use crate::{Place, Setup};
use osb_base::Steps;
use osb_recipe::{Outcome, Plan};
use osb_tasks::{Made, keep_tree, last_of, nothing_found, stage_at};
use osb_tree::{Key, NoMemory, Shared, TaskNo, Tree};
use std::alloc::Global;
use std::sync::ledger::Ledger;

pub(crate) fn chain_at(plan: &Plan, task: TaskNo) -> &[Key]
    ensures { result.now ≡ chain_at plan.now task }
{
    match plan.tasks.as_slice().get(task.0 as usize) {
        Some(task) => task.chain.as_slice(),
        None => &[],
    }
}

pub(crate) fn marked_at(plan: &Plan, task: TaskNo) -> &[Key]
    ensures { result.now ≡ marked_at plan.now task }
{
    match plan.tasks.as_slice().get(task.0 as usize) {
        Some(task) => task.marked.as_slice(),
        None => &[],
    }
}

pub(crate) fn deps_at(plan: &Plan, task: TaskNo) -> &[TaskNo]
    ensures { result.now ≡ deps_at plan.now task }
{
    match plan.tasks.as_slice().get(task.0 as usize) {
        Some(task) => task.deps.as_slice(),
        None => &[],
    }
}

fn has_key(keys: &[Key], key: Key) -> bool
    ensures { result ≡ has_key keys.now key }
{
    keys.iter().any(|held| held.0 == key.0)
}

/// The place of a chain behind a key.
pub(crate) fn place_behind(chain: &[Key], key: Key) -> usize
    ensures { result ≡ place_behind key chain.now }
{
    for (place, held) in chain.iter().enumerate() {
        if held.0 == key.0 {
            return place + 1;
        }
    }
    chain.len() + 1
}

/// The trees of a task's dependencies, by the keys that their chains end with.
pub(crate) fn trees_of(
    alloc: Global,
    plan: &Plan,
    deps: &[TaskNo],
    got: &[Outcome],
) -> Result<Vec<Option<Shared<Tree>>>, NoMemory>
    requires { IsSound plan.now }
    ensures trees { IfOk result (λ trees. trees.items ≡ trees_of plan.now deps.now got.now) }
    ensures keys { IfOk result (λ trees. length trees.items ≡ length plan.now.table.recipes) }
{
    let mut trees = nothing_found(alloc, plan.table.recipes().len())?;
    for (dep, outcome) in deps.iter().zip(got) {
        keep_tree(&mut trees, last_of(chain_at(plan, *dep)), outcome)?;
    }
    Ok(trees)
}

/// Runs the stages of a task's chain from a place on, as far as a marked one that has a tree.
pub(crate) fn run_from<L: Ledger>(
    alloc: Global,
    plan: &Plan,
    setup: Setup,
    from: usize,
    base: Tree,
    steps: &mut Steps<L>,
) -> Place
    requires { HasTrees plan.now setup }
    ensures taken { IsTaken (run_from plan.now setup from base) steps.old steps.new result }
    ensures of_plan { IsOf plan.now result }
    ensures place { IsPlace result }
{
    let task = setup.task;
    let marked = marked_at(plan, task);
    let mut tree = base;
    for (passed, key) in rest_of(chain_at(plan, task), from).iter().enumerate() {
        let before = from + passed;
        tree = match stage_at(
            alloc,
            &plan.table,
            setup.trees.as_slice(),
            *key,
            tree,
            steps,
        ) {
            Ok(Made::Tree(tree)) => tree,
            Ok(Made::Fault(fault)) => return ending(task, Outcome::Fault(before as u64, fault)),
            Ok(Made::Blocked) => return ending(task, Outcome::Blocked),
            Err(_) => return no_memory(task),
        };
        if has_key(marked, *key) {
            return reserving(setup, *key, tree, before + 1);
        }
    }
    with_tree(alloc, task, tree)
}

/// A chain from a place on.
fn rest_of(chain: &[Key], from: usize) -> &[Key]
    ensures { result.now ≡ drop from chain.now }
{
    match chain.get(from..) {
        Some(rest) => rest,
        None => &[],
    }
}

/// A task ends with a tree.
fn with_tree(alloc: Global, task: TaskNo, tree: Tree) -> Place
    ensures { IsMade (Place.Ending task (Outcome.Tree tree)) result }
{
    match Shared::new(alloc, tree) {
        Ok(tree) => ending(task, Outcome::Tree(tree)),
        Err(_) => no_memory(task),
    }
}

fn ending(task: TaskNo, outcome: Outcome) -> Place
    ensures { result ≡ Place.Ending task outcome }
{
    Place::Ending { task, outcome }
}

fn reserving(setup: Setup, key: Key, tree: Tree, run: usize) -> Place
    ensures reserving { result ≡ Place.Reserving setup key tree run }
    ensures whole { IsWhole tree }
{
    let _paths = tree.len();
    Place::Reserving {
        setup,
        key,
        tree,
        run,
    }
}
