//! The recipe of a stage.
ghost use Rattle.std.specs.Prelude.{◌≡◌, IfOk, map, option_map};
ghost use Rattle.osb_recipe.specs.Recipes.{IsReadFrom};
ghost use Rattle.osb_recipe.specs.Interning.{place_in};
ghost use Rattle.osb_recipe.specs.Tables.{same_bytes, last_of};
ghost use Rattle.osb_manifest.specs.Solo.{items_given};
ghost use Rattle.osb_plan.specs.Planning.{ref_at, input_recipe, stage_recipe};

use osb_base::{Bytes, Digest, Key, List, NoMemory, Text, find_item};
use osb_manifest::{Input, Stage};
use osb_recipe::{InputRecipe, Recipe, Table, TreeRef};
use std::alloc::Global;

/// The tree of the last key, or the empty tree.
pub(crate) fn last_of(chain: &[Key]) -> TreeRef
    ensures { result ≡ last_of chain.now }
{
    let mut last = TreeRef::Empty;
    for key in chain {
        last = TreeRef::Of(*key);
    }
    last
}

/// The tree of the pipeline at a place.
pub(crate) fn ref_at(chains: &[(usize, List<Key>)], place: usize) -> TreeRef
    ensures { result ≡ ref_at chains.now place }
{
    for (held, chain) in chains {
        if *held == place {
            return last_of(chain.as_slice());
        }
    }
    TreeRef::Empty
}

/// The recipe of a stage of a pipeline with this build tree, over this tree. What its pipeline is built with is planned,
/// and its items are blobs of the table.
pub(crate) fn stage_recipe(
    alloc: Global,
    gathered: &[(Digest, Bytes)],
    chains: &[(usize, List<Key>)],
    table: &Table,
    build: Option<usize>,
    base: TreeRef,
    stage: &Stage,
) -> Result<Recipe, NoMemory>
    requires read { IsReadFrom stage.now.kind stage.now.options_text }
    ensures recipe { IfOk result (λ recipe. recipe ≡ stage_recipe gathered.now chains.now table.now.blobs build base stage.now) }
{
    let inputs = input_recipes(alloc, gathered, chains, table, stage.inputs.as_slice())?;
    Ok(Recipe {
        kind: stage.kind.share()?,
        options_text: stage.options_text.clone()?,
        build: build_ref(chains, build),
        base,
        inputs: List::new(inputs),
    })
}

fn build_ref(chains: &[(usize, List<Key>)], build: Option<usize>) -> Option<TreeRef>
    ensures { result ≡ option_map (ref_at chains.now) build }
{
    match build {
        Some(place) => Some(ref_at(chains, place)),
        None => None,
    }
}

fn input_recipes(
    alloc: Global,
    gathered: &[(Digest, Bytes)],
    chains: &[(usize, List<Key>)],
    table: &Table,
    inputs: &[(Text, Input)],
) -> Result<Vec<(Text, InputRecipe)>, NoMemory>
    ensures { IfOk result (λ recipes. recipes.items ≡ map (λ input. (input.0, input_recipe gathered.now chains.now table.now.blobs input.1)) inputs.now) }
{
    let mut recipes = Vec::new(alloc);
    for (name, input) in inputs {
        let recipe = input_recipe(alloc, gathered, chains, table, input)?;
        recipes.push((name.clone()?, recipe))?;
    }
    Ok(recipes)
}

fn input_recipe(
    alloc: Global,
    gathered: &[(Digest, Bytes)],
    chains: &[(usize, List<Key>)],
    table: &Table,
    input: &Input,
) -> Result<InputRecipe, NoMemory>
    ensures { IfOk result (λ recipe. recipe ≡ input_recipe gathered.now chains.now table.now.blobs input.now) }
{
    match input {
        Input::Tree(place, _) => Ok(InputRecipe::Tree(ref_at(chains, *place))),
        Input::Files(files) => {
            let numbers = numbers_of(alloc, gathered, table, files.as_slice())?;
            Ok(InputRecipe::Files(List::new(numbers)))
        }
    }
}

/// The numbers of the items of an input.
fn numbers_of(
    alloc: Global,
    gathered: &[(Digest, Bytes)],
    table: &Table,
    files: &[(Digest, Text)],
) -> Result<Vec<u64>, NoMemory>
    ensures { IfOk result (λ numbers. numbers.items ≡ map (place_in same_bytes table.now.blobs) (items_given gathered.now files.now)) }
{
    let mut numbers = Vec::new(alloc);
    for (digest, _) in files {
        if let Some(bytes) = find_item(gathered, digest) {
            numbers.push(table.blob_number(bytes.as_slice()))?;
        }
    }
    Ok(numbers)
}
