//! The tasks of a plan, and the stages of one.
ghost use Rattle.std.specs.Prelude.{◌≡◌, ◌≢◌, ◌<◌, Some, None, IfOk, OnOk, map, length, replicate, slice_get};
ghost use Rattle.std.specs.List.{All};
ghost use Rattle.osb_recipe.specs.Works.{tree_of};
ghost use Rattle.osb_recipe.specs.Recipes.{IsRefBelow};
ghost use Rattle.osb_recipe.specs.Tables.{last_of};
ghost use Rattle.osb_recipe.specs.Meanings.{meant};
ghost use Rattle.osb_recipe.specs.Plans.{IsSound};
ghost use Rattle.osb_tasks.specs.Running.{outcome_found, with_tree};

use crate::ready::keys_can_run;
use crate::stages::stage_tree;
use osb_base::Steps;
use osb_recipe::{Outcome, Plan, Recipe, Table, TreeRef};
use osb_tree::{Key, NoMemory, Shared, StageFault, Tree};
use std::alloc::{AllocError, Global};
use std::sync::ledger::Ledger;

/// Builds the tasks of a plan in their order, each from the empty tree, with the trees of the tasks before it.
pub fn run_tasks<L: Ledger>(
    alloc: Global,
    plan: &Plan,
    steps: &mut Steps<L>,
) -> Result<Vec<Outcome>, NoMemory>
    requires sound { IsSound plan.now }
    ensures outcomes { IfOk result (λ outcomes. outcomes.items ≡ map (λ task. meant plan.now.table task.chain) plan.now.tasks) }
{
    let tasks = plan.tasks.as_slice();
    let mut found = nothing_found(alloc, plan.table.recipes().len())?;
    let mut outcomes = Vec::new(alloc);
    for task in tasks {
        let chain = task.chain.as_slice();
        let outcome = task_outcome(alloc, &plan.table, &found, chain, steps)?;
        keep_tree(&mut found, last_of(chain), &outcome)?;
        outcomes.push(outcome)?;
    }
    Ok(outcomes)
}

/// No tree yet, for each key of so many.
pub fn nothing_found(alloc: Global, keys: usize) -> Result<Vec<Option<Shared<Tree>>>, NoMemory>
    ensures { IfOk result (λ found. found.items ≡ replicate keys None) }
{
    let mut found = Vec::new(alloc);
    for _ in 0..keys {
        found.push(None)?;
    }
    Ok(found)
}

/// Keeps the tree of an outcome, if it has one, under the key that its chain ends with.
pub fn keep_tree(
    found: &mut Vec<Option<Shared<Tree>>>,
    last: TreeRef,
    outcome: &Outcome,
) -> Result<(), NoMemory>
    requires { IsRefBelow (length found.old.items) last }
    ensures { OnOk result (found.new.items ≡ with_tree last (tree_of outcome.now) found.old.items) }
{
    if let TreeRef::Of(key) = last {
        found[key.0 as usize] = tree_of(outcome)?;
    }
    Ok(())
}

fn tree_of(outcome: &Outcome) -> Result<Option<Shared<Tree>>, NoMemory>
    ensures { IfOk result (λ tree. tree ≡ tree_of outcome.now) }
{
    match outcome {
        Outcome::Tree(tree) => Ok(Some(tree.share()?)),
        _ => Ok(None),
    }
}

/// The tree of the last key, or the empty tree.
pub fn last_of(chain: &[Key]) -> TreeRef
    ensures { result ≡ last_of chain.now }
{
    let mut last = TreeRef::Empty;
    for key in chain {
        last = TreeRef::Of(*key);
    }
    last
}

/// Blocked, before any stage runs, where what a stage is made with has no tree.
fn task_outcome<L: Ledger>(
    alloc: Global,
    table: &Table,
    found: &[Option<Shared<Tree>>],
    chain: &[Key],
    steps: &mut Steps<L>,
) -> Result<Outcome, NoMemory>
    requires found { length found.now ≡ length table.now.recipes }
    requires keys { All (λ key. key.0 < length table.now.recipes) chain.now }
    ensures { IfOk result (λ outcome. outcome ≡ outcome_found found.now table.now.blobs table.now.recipes chain.now) }
{
    let recipes = table.recipes();
    let blobs = table.blobs();
    if !keys_can_run(found, recipes, chain) {
        return Ok(Outcome::Blocked);
    }
    let mut tree = Tree::empty(alloc)?;
    for (place, key) in chain.iter().enumerate() {
        let recipe = recipe_at(recipes, *key);
        tree = match stage_tree(alloc, found, blobs, recipe, tree, steps) {
            Ok(tree) => tree,
            Err(fault) => return fault_outcome(place as u64, fault),
        };
    }
    Ok(Outcome::Tree(Shared::new(alloc, tree)?))
}

fn recipe_at(recipes: &[Recipe], key: Key) -> &Recipe
    requires { key.0 < length recipes.now }
    ensures { slice_get recipes.now key.0 ≡ Some result.now }
{
    &recipes[key.0 as usize]
}

fn fault_outcome(place: u64, fault: StageFault) -> Result<Outcome, NoMemory>
    ensures { IfOk result (λ outcome. (fault ≢ StageFault.NoMemory) × (outcome ≡ Outcome.Fault place fault)) }
{
    match fault {
        StageFault::NoMemory => Err(AllocError),
        fault => Ok(Outcome::Fault(place, fault)),
    }
}
