//! Whether stages can run: what they are made with has trees.
ghost use Rattle.std.specs.Prelude.{◌≡◌, IfOk, Some, true};
ghost use Rattle.osb_recipe.specs.Meanings.{tree_at};
ghost use Rattle.osb_tasks.specs.Ready.{has_tree, has_build, has_input, has_inputs, can_run, key_can_run, keys_can_run};

use osb_recipe::{InputRecipe, Recipe, TreeRef};
use osb_tree::{Key, NoMemory, Shared, Text, Tree};
use std::alloc::Global;

/// Whether each stage of a chain can run.
pub(crate) fn keys_can_run(found: &[Option<Shared<Tree>>], recipes: &[Recipe], keys: &[Key]) -> bool
    ensures { result ≡ keys_can_run found.now recipes.now keys.now }
{
    for key in keys {
        if !key_can_run(found, recipes, *key) {
            return false;
        }
    }
    true
}

fn key_can_run(found: &[Option<Shared<Tree>>], recipes: &[Recipe], key: Key) -> bool
    ensures { result ≡ key_can_run found.now recipes.now key }
{
    match recipes.get(key.0 as usize) {
        Some(recipe) => can_run(found, recipe),
        None => false,
    }
}

pub(crate) fn can_run(found: &[Option<Shared<Tree>>], recipe: &Recipe) -> bool
    ensures { result ≡ can_run found.now recipe.now }
{
    has_build(found, recipe.build) && has_inputs(found, recipe.inputs.as_slice())
}

fn has_build(found: &[Option<Shared<Tree>>], build: Option<TreeRef>) -> bool
    ensures { result ≡ has_build found.now build }
{
    match build {
        Some(tree) => has_tree(found, tree),
        None => true,
    }
}

fn has_inputs(found: &[Option<Shared<Tree>>], inputs: &[(Text, InputRecipe)]) -> bool
    ensures { result ≡ has_inputs found.now inputs.now }
{
    for (_, input) in inputs {
        if !has_input(found, input) {
            return false;
        }
    }
    true
}

fn has_input(found: &[Option<Shared<Tree>>], input: &InputRecipe) -> bool
    ensures { result ≡ has_input found.now input.now }
{
    match input {
        InputRecipe::Tree(tree) => has_tree(found, *tree),
        InputRecipe::Files(_) => true,
    }
}

fn has_tree(found: &[Option<Shared<Tree>>], tree: TreeRef) -> bool
    ensures { result ≡ has_tree found.now tree }
{
    match tree {
        TreeRef::Empty => true,
        TreeRef::Of(key) => match found.get(key.0 as usize) {
            Some(Some(_)) => true,
            _ => false,
        },
    }
}

/// The tree of a reference that has one.
pub(crate) fn tree_at(
    alloc: Global,
    found: &[Option<Shared<Tree>>],
    tree: TreeRef,
) -> Result<Shared<Tree>, NoMemory>
    requires { has_tree found.now tree ≡ true }
    ensures { IfOk result (λ shared. tree_at found.now tree ≡ Some shared) }
{
    match tree {
        TreeRef::Empty => Shared::new(alloc, Tree::empty(alloc)?),
        TreeRef::Of(key) => match found.get(key.0 as usize) {
            Some(Some(tree)) => tree.share(),
            _ => unreachable!(),
        },
    }
}
