//! Recipes, and what they may be behind those before them.
ghost use Rattle.std.specs.Prelude.{◌≡◌, length};
ghost use Rattle.std.specs.List.{list_all};
ghost use Rattle.std.specs.Map.{keys_of};
ghost use Rattle.osb_store.specs.Recipes.{recipe_at, is_ref_below, is_build_below, is_above, rises_from, rises, are_below, blob_at, digests_at, is_well_content, is_well_recipe};
ghost use Rattle.osb_store.specs.Steps.{Gives};
ghost use Rattle.sha2.specs.Sha256.{sha256};

use crate::fields::text_of;
use crate::inputs::{build_of, inputs_of, ref_of};
use crate::options::kind_of_texts;
use crate::steps::Stop;
use osb_base::Bytes;
use osb_recipe::{InputRecipe, Recipe, TreeRef};
use osb_tree::{List, Shared, Text};
use sha2::{Digest, Sha256};
use std::alloc::Global;

#[tactic(auto, unfolding(crate::specs::Recipes::recipe_at))]
pub(crate) fn recipe_of(alloc: Global, bytes: &[u8]) -> Result<(Recipe, &[u8]), Stop>
    ensures { Gives (λ x. (x.0, x.1.now)) result (recipe_at bytes.now) }
{
    let (stage, rest) = text_of(bytes)?;
    let (spelled, rest) = text_of(rest)?;
    let (build, rest) = build_of(rest)?;
    let (base, rest) = ref_of(rest)?;
    let (inputs, rest) = inputs_of(alloc, rest)?;
    let kind = kind_of_texts(alloc, stage, spelled)?;
    let recipe = Recipe {
        kind: Shared::new(alloc, kind)?,
        options_text: Text::new(alloc, spelled)?,
        build,
        base,
        inputs: List::new(inputs),
    };
    Ok((recipe, rest))
}

fn is_ref_below(keys: u64, tree: TreeRef) -> bool
    ensures { result ≡ is_ref_below keys tree }
{
    match tree {
        TreeRef::Empty => true,
        TreeRef::Of(key) => key.0 < keys,
    }
}

fn is_build_below(keys: u64, build: Option<TreeRef>) -> bool
    ensures { result ≡ is_build_below keys build }
{
    match build {
        None => true,
        Some(tree) => is_ref_below(keys, tree),
    }
}

fn are_below(count: u64, numbers: &[u64]) -> bool
    ensures { result ≡ are_below count numbers.now }
{
    numbers.iter().all(|number| *number < count)
}

fn digest_at(blobs: &[Bytes], number: u64) -> [u8; 32]
    ensures { result ≡ sha256 (blob_at blobs.now number) }
{
    match blobs.get(number as usize) {
        Some(blob) => Sha256::digest(blob.as_slice()),
        None => Sha256::digest(b""),
    }
}

fn is_above(text: &[u8], last: &[u8]) -> bool
    ensures { result ≡ is_above last.now text.now }
{
    last < text
}

/// Whether the digests of the blobs with these numbers rise from this one.
fn digests_rise_from(blobs: &[Bytes], first: [u8; 32], numbers: &[u64]) -> bool
    ensures { result ≡ rises_from first (digests_at blobs.now numbers.now) }
{
    let mut last = first;
    for number in numbers {
        let digest = digest_at(blobs, *number);
        if !is_above(&digest, &last) {
            return false;
        }
        last = digest;
    }
    true
}

fn have_rising_digests(blobs: &[Bytes], numbers: &[u64]) -> bool
    ensures { result ≡ rises (digests_at blobs.now numbers.now) }
{
    match numbers.split_first() {
        None => true,
        Some((first, others)) => digests_rise_from(blobs, digest_at(blobs, *first), others),
    }
}

fn names_rise_from(first: &[u8], inputs: &[(Text, InputRecipe)]) -> bool
    ensures { result ≡ rises_from first.now (keys_of inputs.now) }
{
    let mut last = first;
    for input in inputs {
        let name = input.0.as_str().as_bytes();
        if !is_above(name, last) {
            return false;
        }
        last = name;
    }
    true
}

fn have_rising_names(inputs: &[(Text, InputRecipe)]) -> bool
    ensures { result ≡ rises (keys_of inputs.now) }
{
    match inputs.split_first() {
        None => true,
        Some((first, others)) => names_rise_from(first.0.as_str().as_bytes(), others),
    }
}

fn is_well_content(blobs: &[Bytes], keys: u64, content: &InputRecipe) -> bool
    ensures { result ≡ is_well_content blobs.now keys content.now }
{
    match content {
        InputRecipe::Tree(tree) => is_ref_below(keys, *tree),
        InputRecipe::Files(numbers) => {
            are_below(blobs.len() as u64, numbers.as_slice())
                && have_rising_digests(blobs, numbers.as_slice())
        }
    }
}

fn are_well_inputs(blobs: &[Bytes], keys: u64, inputs: &[(Text, InputRecipe)]) -> bool
    ensures { result ≡ list_all (λ input. is_well_content blobs.now keys input.1) inputs.now }
{
    inputs
        .iter()
        .all(|(_, content)| is_well_content(blobs, keys, content))
}

/// Whether it refers to recipes before it and to blobs alone, and its names and digests rise.
pub(crate) fn fits_behind(blobs: &[Bytes], keys: u64, recipe: &Recipe) -> bool
    ensures { result ≡ is_well_recipe blobs.now keys recipe.now }
{
    let _spelled = &recipe.options_text;
    is_build_below(keys, recipe.build)
        && is_ref_below(keys, recipe.base)
        && have_rising_names(recipe.inputs.as_slice())
        && are_well_inputs(blobs, keys, recipe.inputs.as_slice())
}
