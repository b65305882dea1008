//! The three lists of a body: a count, and as many items.
ghost use Rattle.std.specs.Prelude.{◌≡◌, ◌+◌, ◌*◌, ◌<◌, ◌≤◌, ◌^◌, ◌++◌, [], true, length, sum_by, IfOk};
ghost use Rattle.osb_recipe.specs.Recipes.{IsBelow};
ghost use Rattle.osb_store.specs.Entries.{entry_at, is_entry, is_of_a_tree};
ghost use Rattle.osb_store.specs.Lists.{checked_at, count_at, items_at, is_blob, blobs_from, recipes_from, entries_from, refused_at, GivesFrom};
ghost use Rattle.osb_store.specs.Reading.{field_at};
ghost use Rattle.osb_store.specs.Recipes.{recipe_at, is_recipe, is_well_recipe};
ghost use Rattle.osb_store.specs.Rules.{EachMay, MayBeRecipe, entry_size};
ghost use Rattle.osb_store.specs.Steps.{Gives};
ghost use Rattle.osb_store.specs.Texts.{recipe_text};

use crate::StoreRefusal;
use crate::entries::entry_of;
use crate::fields::{field_of, number_of};
use crate::held::{Blobs, Entries, Recipes};
use crate::recipes::{fits_behind, recipe_of};
use crate::steps::Stop;
use osb_cache::Stored;
use osb_recipe::{Recipe, Table};
use osb_tree::Chunk;
use std::alloc::Global;

/// The most bytes that a blob has.
const MOST_BLOB_BYTES: usize = 16_777_216;

fn refused_at(place: u64, stop: Stop) -> StoreRefusal
    ensures { result ≡ refused_at place stop }
{
    match stop {
        Stop::Broken => StoreRefusal::Shape(place),
        Stop::Memory => StoreRefusal::NoMemory,
    }
}

#[tactic(auto, unfolding(crate::specs::Lists::count_at))]
fn count_of(bytes: &[u8]) -> Result<(u64, &[u8]), Stop>
    ensures count { Gives (λ x. (x.0, x.1.now)) result (count_at bytes.now) }
    ensures few { IfOk result (λ x. x.0 < 2 ^ 61) }
{
    let (count, rest) = number_of(bytes)?;
    if rest.len() as u64 / 8 < count {
        return Err(Stop::Broken);
    }
    Ok((count, rest))
}

// ---- blobs

fn next_blob<'a>(blobs: &Blobs, bytes: &'a [u8]) -> Result<(&'a [u8], &'a [u8]), Stop>
    ensures { Gives (λ x. (x.0.now, x.1.now)) result (checked_at field_at is_blob blobs.now bytes.now) }
{
    let (blob, rest) = field_of(bytes)?;
    if blob.len() > MOST_BLOB_BYTES || blobs.has(blob) {
        return Err(Stop::Broken);
    }
    Ok((blob, rest))
}

fn read_blobs<'a>(
    alloc: Global,
    count: u64,
    bytes: &'a [u8],
) -> Result<(Blobs<'a>, &'a [u8]), StoreRefusal>
    requires { count < 2 ^ 61 }
    ensures items { GivesFrom (λ x. (x.0, x.1.now)) result (items_at field_at is_blob count 1 [] bytes.now) }
    ensures few { IfOk result (λ x. length x.0 < 2 ^ 61) }
{
    let mut blobs = Blobs::new(alloc)?;
    let mut rest = bytes;
    for i in 0..count {
        match next_blob(&blobs, rest) {
            Ok((blob, behind)) => {
                blobs = blobs.with(alloc, blob)?;
                rest = behind;
            }
            Err(stop) => return Err(refused_at(1 + i, stop)),
        }
    }
    Ok((blobs, rest))
}

#[tactic(auto, unfolding(crate::specs::Lists::blobs_from))]
pub(crate) fn blobs_of<'a>(
    alloc: Global,
    bytes: &'a [u8],
) -> Result<(Blobs<'a>, &'a [u8]), StoreRefusal>
    ensures blobs { GivesFrom (λ x. (x.0, x.1.now)) result (blobs_from bytes.now) }
    ensures few { IfOk result (λ x. length x.0 < 2 ^ 61) }
{
    match count_of(bytes) {
        Ok((count, rest)) => read_blobs(alloc, count, rest),
        Err(stop) => Err(refused_at(0, stop)),
    }
}

// ---- recipes

fn is_well(recipes: &Recipes, recipe: &Recipe) -> bool
    ensures { result ≡ is_well_recipe recipes.now.blobs (length recipes.now.recipes) recipe.now }
{
    let table = recipes.table();
    fits_behind(table.blobs(), table.recipes().len() as u64, recipe)
}

/// The next recipe with its text.
fn next_recipe<'a>(
    alloc: Global,
    recipes: &Recipes,
    bytes: &'a [u8],
) -> Result<(Recipe, &'a [u8], &'a [u8]), Stop>
    requires blobs { length recipes.now.blobs < 2 ^ 64 }
    requires recipes { length recipes.now.recipes < 2 ^ 64 }
    requires each { EachMay (MayBeRecipe recipes.now.blobs) [] recipes.now.recipes }
    ensures recipe { Gives (λ x. (x.0, x.2.now)) result (checked_at recipe_at (is_recipe recipes.now.blobs) recipes.now.recipes bytes.now) }
    ensures text { IfOk result (λ x. x.1.now ≡ recipe_text x.0) }
{
    let (recipe, rest) = recipe_of(alloc, bytes)?;
    if !is_well(recipes, &recipe) {
        return Err(Stop::Broken);
    }
    let text = &bytes[..bytes.len() - rest.len()];
    if recipes.has(text) {
        return Err(Stop::Broken);
    }
    Ok((recipe, text, rest))
}

fn read_recipes<'a>(
    alloc: Global,
    table: Table,
    count: u64,
    bytes: &'a [u8],
) -> Result<(Recipes<'a>, &'a [u8]), StoreRefusal>
    requires count { count < 2 ^ 61 }
    requires blobs { length table.blobs < 2 ^ 61 }
    requires none { table.recipes ≡ [] }
    ensures items { GivesFrom (λ x. (x.0.recipes, x.1.now)) result (items_at recipe_at (is_recipe table.blobs) count (2 + length table.blobs) [] bytes.now) }
    ensures blobs { IfOk result (λ x. x.0.blobs ≡ table.blobs) }
    ensures few { IfOk result (λ x. length x.0.recipes < 2 ^ 61) }
{
    let place = 2 + table.blobs().len() as u64;
    let mut recipes = Recipes::new(alloc, table);
    let mut rest = bytes;
    for i in 0..count {
        match next_recipe(alloc, &recipes, rest) {
            Ok((recipe, text, behind)) => {
                recipes = recipes.with(recipe, text)?;
                rest = behind;
            }
            Err(stop) => return Err(refused_at(place + i, stop)),
        }
    }
    Ok((recipes, rest))
}

#[tactic(auto, unfolding(crate::specs::Lists::recipes_from))]
pub(crate) fn recipes_of<'a>(
    alloc: Global,
    table: Table,
    bytes: &'a [u8],
) -> Result<(Recipes<'a>, &'a [u8]), StoreRefusal>
    requires blobs { length table.blobs < 2 ^ 61 }
    requires none { table.recipes ≡ [] }
    ensures recipes { GivesFrom (λ x. (x.0.recipes, x.1.now)) result (recipes_from table.blobs bytes.now) }
    ensures blobs { IfOk result (λ x. x.0.blobs ≡ table.blobs) }
    ensures few { IfOk result (λ x. length x.0.recipes < 2 ^ 61) }
{
    match count_of(bytes) {
        Ok((count, rest)) => read_recipes(alloc, table, count, rest),
        Err(stop) => Err(refused_at(1 + table.blobs().len() as u64, stop)),
    }
}

// ---- entries

fn next_entry<'a>(
    alloc: Global,
    keys: u64,
    entries: &Entries,
    bytes: &'a [u8],
) -> Result<(Stored<Chunk>, &'a [u8]), Stop>
    ensures entry { Gives (λ x. (x.0, x.1.now)) result (checked_at entry_at (is_entry keys) entries.now bytes.now) }
    ensures tree { IfOk result (λ x. is_of_a_tree x.0.chunks ≡ true) }
    ensures small { IfOk result (λ x. sum_by entry_size entries.now + entry_size x.0 ≤ 2 ^ 62) }
{
    match entry_of(alloc, bytes) {
        Ok((entry, rest)) => {
            if !entries.fits(keys, &entry) {
                return Err(Stop::Broken);
            }
            Ok((entry, rest))
        }
        Err(stop) => Err(stop),
    }
}

fn read_entries<'a>(
    alloc: Global,
    keys: u64,
    place: u64,
    count: u64,
    bytes: &'a [u8],
) -> Result<(Entries, &'a [u8]), StoreRefusal>
    requires count { count < 2 ^ 61 }
    requires place { place < 2 ^ 63 }
    ensures items { GivesFrom (λ x. (x.0, x.1.now)) result (items_at entry_at (is_entry keys) count place [] bytes.now) }
    ensures few { IfOk result (λ x. length x.0 < 2 ^ 61) }
{
    let mut entries = Entries::new(alloc);
    let mut rest = bytes;
    for i in 0..count {
        match next_entry(alloc, keys, &entries, rest) {
            Ok((entry, behind)) => {
                entries = entries.with(entry)?;
                rest = behind;
            }
            Err(stop) => return Err(refused_at(place + i, stop)),
        }
    }
    Ok((entries, rest))
}

#[tactic(auto, unfolding(crate::specs::Lists::entries_from))]
pub(crate) fn entries_of<'a>(
    alloc: Global,
    blobs: u64,
    keys: u64,
    bytes: &'a [u8],
) -> Result<(Entries, &'a [u8]), StoreRefusal>
    requires blobs { blobs < 2 ^ 61 }
    requires keys { keys < 2 ^ 61 }
    ensures entries { GivesFrom (λ x. (x.0, x.1.now)) result (entries_from blobs keys bytes.now) }
    ensures few { IfOk result (λ x. length x.0 < 2 ^ 61) }
{
    match count_of(bytes) {
        Ok((count, rest)) => read_entries(alloc, keys, 3 + blobs + keys, count, rest),
        Err(stop) => Err(refused_at(2 + blobs + keys, stop)),
    }
}
