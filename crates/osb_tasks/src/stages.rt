//! One stage, with the trees that were found before.
ghost use Rattle.std.specs.Prelude.{◌≡◌, ◌≢◌, ◌+◌, ◌<◌, ◌≤◌, Some, Err, unwrap_or, IfOk, OnOk, option_map, option_copied, length, slice_get, true};
ghost use Rattle.std.specs.List.{All};
ghost use Rattle.std.specs.Result.{result_map_both};
ghost use Rattle.osb_recipe.specs.Recipes.{IsInputBelow, IsBelow};
ghost use Rattle.osb_recipe.specs.Meanings.{build_at, input_at, inputs_at, work_of};
ghost use Rattle.osb_recipe.specs.Works.{tool_fault, given_tree, input_trees, does};
ghost use Rattle.osb_tasks.specs.Ready.{has_build, has_input, has_inputs, can_run};
ghost use Rattle.osb_tasks.specs.Stages.{made_of, made_at, steps_of, steps_at};

use crate::ready::{can_run, tree_at};
use osb_base::Steps;
use osb_recipe::{InputRecipe, Recipe, Table, TreeRef, files_tree, missing_tool, run_stage};
use osb_tree::{Bytes, Inputs, Key, List, NoMemory, PutFault, Shared, StageFault, Text, Tree};
use std::alloc::{AllocError, Global};
use std::sync::ledger::Ledger;

/// What a stage made of a tree.
#[derive(Drop)]
pub enum Made {
    Tree(Tree),
    Fault(StageFault),
    /// Nothing: something that it is made with has no tree.
    Blocked,
}

/// What the stage of a key makes of a tree, with the trees that are found, by key. The stage is run, which is one step,
/// unless there are no trees for its inputs.
pub fn stage_at<L: Ledger>(
    alloc: Global,
    table: &Table,
    found: &[Option<Shared<Tree>>],
    key: Key,
    base: Tree,
    steps: &mut Steps<L>,
) -> Result<Made, NoMemory>
    requires found { length found.now ≡ length table.now.recipes }
    ensures made { IfOk result (λ made. made ≡ made_at found.now table.now key base) }
    ensures steps { OnOk result (steps.new ≡ steps.old + steps_at found.now table.now key) }
    ensures more { steps.old ≤ steps.new }
    ensures most { steps.new ≤ steps.old + steps_at found.now table.now key }
{
    match recipe_at(table.recipes(), key) {
        Some(recipe) => stage_made(alloc, found, table.blobs(), recipe, base, steps),
        None => Ok(Made::Blocked),
    }
}

fn recipe_at(recipes: &[Recipe], key: Key) -> Option<&Recipe>
    ensures { option_copied result ≡ slice_get recipes.now key.0 }
{
    recipes.get(key.0 as usize)
}

/// What a stage makes of a tree.
fn stage_made<L: Ledger>(
    alloc: Global,
    found: &[Option<Shared<Tree>>],
    blobs: &[Bytes],
    recipe: &Recipe,
    base: Tree,
    steps: &mut Steps<L>,
) -> Result<Made, NoMemory>
    requires below { IsBelow (length found.now) (length blobs.now) recipe.now }
    ensures made { IfOk result (λ made. made ≡ made_of (option_map (λ work. does work base) (work_of found.now blobs.now recipe.now))) }
    ensures steps { OnOk result (steps.new ≡ steps.old + steps_of (work_of found.now blobs.now recipe.now)) }
    ensures more { steps.old ≤ steps.new }
    ensures most { steps.new ≤ steps.old + steps_of (work_of found.now blobs.now recipe.now) }
{
    if !can_run(found, recipe) {
        return Ok(Made::Blocked);
    }
    match stage_tree(alloc, found, blobs, recipe, base, steps) {
        Ok(tree) => Ok(Made::Tree(tree)),
        Err(StageFault::NoMemory) => Err(AllocError),
        Err(fault) => Ok(Made::Fault(fault)),
    }
}

/// What a stage that can run makes of a tree.
pub(crate) fn stage_tree<L: Ledger>(
    alloc: Global,
    found: &[Option<Shared<Tree>>],
    blobs: &[Bytes],
    recipe: &Recipe,
    base: Tree,
    steps: &mut Steps<L>,
) -> Result<Tree, StageFault>
    requires ready { can_run found.now recipe.now ≡ true }
    requires below { IsBelow (length found.now) (length blobs.now) recipe.now }
    ensures made { result ≢ Err StageFault.NoMemory → option_map (λ work. does work base) (work_of found.now blobs.now recipe.now) ≡ Some result }
    ensures steps { result ≢ Err StageFault.NoMemory → steps.new ≡ steps.old + steps_of (work_of found.now blobs.now recipe.now) }
    ensures more { steps.old ≤ steps.new }
    ensures most { steps.new ≤ steps.old + steps_of (work_of found.now blobs.now recipe.now) }
{
    let build = build_at(alloc, found, recipe.build)?;
    match input_trees(alloc, found, blobs, recipe.inputs.as_slice()) {
        Ok(trees) => {
            let inputs = Inputs {
                trees: List::new(trees),
            };
            run_stage(alloc, recipe, base, tree_in(&build), &inputs, steps)
        }
        Err(fault) => Err(unrun_fault(alloc, recipe, tree_in(&build), fault)),
    }
}

/// The fault of a stage for whose inputs there are no trees: its tools are looked at first.
fn unrun_fault(
    alloc: Global,
    recipe: &Recipe,
    build: Option<&Tree>,
    fault: StageFault,
) -> StageFault
    ensures memory { fault ≡ StageFault.NoMemory → result ≡ StageFault.NoMemory }
    ensures fault { result ≢ StageFault.NoMemory → result ≡ unwrap_or (tool_fault recipe.now.kind (option_copied build.entry)) fault }
{
    match fault {
        StageFault::NoMemory => StageFault::NoMemory,
        fault => match missing_tool(alloc, recipe.kind.get(), build) {
            Ok(Some(path)) => StageFault::ToolMissing(path),
            Ok(None) => fault,
            Err(_) => StageFault::NoMemory,
        },
    }
}

fn tree_in(build: &Option<Shared<Tree>>) -> Option<&Tree>
    ensures { option_copied result ≡ build.now }
{
    match build {
        Some(tree) => Some(tree.get()),
        None => None,
    }
}

/// The tree that a stage runs in, if any.
fn build_at(
    alloc: Global,
    found: &[Option<Shared<Tree>>],
    build: Option<TreeRef>,
) -> Result<Option<Shared<Tree>>, NoMemory>
    requires { has_build found.now build ≡ true }
    ensures { IfOk result (λ tree. build_at found.now build ≡ Some tree) }
{
    match build {
        Some(tree) => Ok(Some(tree_at(alloc, found, tree)?)),
        None => Ok(None),
    }
}

/// The trees of a stage's inputs, by name.
fn input_trees(
    alloc: Global,
    found: &[Option<Shared<Tree>>],
    blobs: &[Bytes],
    inputs: &[(Text, InputRecipe)],
) -> Result<Vec<(Text, Shared<Tree>)>, StageFault>
    requires ready { has_inputs found.now inputs.now ≡ true }
    requires below { All (λ input. IsInputBelow (length found.now) (length blobs.now) input.1) inputs.now }
    ensures { result ≢ Err StageFault.NoMemory → option_map input_trees (inputs_at found.now blobs.now inputs.now) ≡ Some (result_map_both (λ trees. trees.items) (λ fault. fault) result) }
{
    let mut trees = Vec::new(alloc);
    for (name, input) in inputs {
        let tree = match input_tree(alloc, found, blobs, input) {
            Ok(tree) => tree,
            Err(fault) => return Err(fault),
        };
        if trees.push((name.clone()?, tree)).is_err() {
            return Err(StageFault::NoMemory);
        }
    }
    Ok(trees)
}

fn input_tree(
    alloc: Global,
    found: &[Option<Shared<Tree>>],
    blobs: &[Bytes],
    input: &InputRecipe,
) -> Result<Shared<Tree>, StageFault>
    requires ready { has_input found.now input.now ≡ true }
    requires below { IsInputBelow (length found.now) (length blobs.now) input.now }
    ensures { result ≢ Err StageFault.NoMemory → option_map given_tree (input_at found.now blobs.now input.now) ≡ Some result }
{
    match input {
        InputRecipe::Tree(tree) => Ok(tree_at(alloc, found, *tree)?),
        InputRecipe::Files(numbers) => match files_tree(alloc, blobs, numbers.as_slice()) {
            Ok(tree) => Ok(Shared::new(alloc, tree)?),
            Err(fault) => Err(files_fault(fault)),
        },
    }
}

/// The fault of a stage for whose files there is no tree.
fn files_fault(fault: PutFault) -> StageFault
    ensures memory { fault ≡ PutFault.NoMemory → result ≡ StageFault.NoMemory }
    ensures fault { fault ≢ PutFault.NoMemory → result ≡ StageFault.TreeTooLarge }
{
    match fault {
        PutFault::NoMemory => StageFault::NoMemory,
        _ => StageFault::TreeTooLarge,
    }
}
