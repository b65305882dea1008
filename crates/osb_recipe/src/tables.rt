ghost use Rattle.std.specs.Prelude.{◌≡◌, ◌<◌, ◌≤◌, ◌∷◌, ◌++◌, [], Some, IfOk, OnOk, OnErr, length, slice_get};
ghost use Rattle.osb_recipe.specs.Recipes.{Origin, IsBelow, same_recipe};
ghost use Rattle.osb_recipe.specs.Interning.{place_in, interned};
ghost use Rattle.osb_recipe.specs.Tables.{same_bytes, IsTable};

use crate::Recipe;
use osb_tree::{Bytes, Key, NoMemory};
use std::alloc::Global;
use std::marker::Model;

/// Recipes by their keys, and the blobs that they use by their numbers, both from 0. A recipe refers to those before it
/// alone.
#[derive(Drop)]
pub struct Table {
    recipes: Vec<Recipe>,
    blobs: Vec<Bytes>,
}

impl Model for Table {
    ghost use Rattle.osb_recipe.specs.Tables.{TableData, IsTable};

    ghost Value = { TableData };

    ghost view = { λ t. record { recipes = t.recipes.items; blobs = t.blobs.items } };

    ghost invariant = { λ t. IsTable (record { recipes = t.recipes.items; blobs = t.blobs.items }) };
}

impl Table {
    /// The table of nothing.
    pub fn new(alloc: Global) -> Result<Self, NoMemory>
        ensures recipes { IfOk result (λ table. table.recipes ≡ []) }
        ensures blobs { IfOk result (λ table. table.blobs ≡ []) }
    {
        Ok(Table {
            recipes: Vec::new(alloc),
            blobs: Vec::new(alloc),
        })
    }

    /// The recipes by their keys.
    pub fn recipes(&self) -> &[Recipe]
        ensures recipes { result.now ≡ self.now.recipes }
        ensures table { IsTable self.now }
    {
        &self.recipes
    }

    /// The blobs by their numbers.
    pub fn blobs(&self) -> &[Bytes]
        ensures blobs { result.now ≡ self.now.blobs }
        ensures table { IsTable self.now }
    {
        &self.blobs
    }

    /// The number of the blob that is equal to these bytes, or the number of blobs.
    pub fn blob_number(&self, bytes: &[u8]) -> u64
        ensures number { result ≡ place_in same_bytes self.now.blobs bytes.now }
    {
        place_of_blob(&self.blobs, bytes) as u64
    }

    /// Adds a blob, which may be equal to one before it.
    pub fn add_blob(&mut self, bytes: Bytes) -> Result<(), NoMemory>
        ensures blobs { OnOk result (self.new.blobs ≡ self.old.blobs ++ bytes ∷ []) }
        ensures recipes { self.new.recipes ≡ self.old.recipes }
        ensures err { OnErr result (self.new ≡ self.old) }
    {
        self.blobs.push(bytes)?;
        Ok(())
    }

    /// Adds a recipe, which may be equal to one before it.
    pub fn add(&mut self, recipe: Recipe) -> Result<(), NoMemory>
        requires below { IsBelow (length self.old.recipes) (length self.old.blobs) recipe }
        ensures recipes { OnOk result (self.new.recipes ≡ self.old.recipes ++ recipe ∷ []) }
        ensures blobs { self.new.blobs ≡ self.old.blobs }
        ensures err { OnErr result (self.new ≡ self.old) }
    {
        // What holds of a recipe is known where a field is read.
        let _spelled = &recipe.options_text;
        self.recipes.push(recipe)?;
        Ok(())
    }

    /// The number of the equal blob, or of this one, which is then added.
    pub fn intern_blob(&mut self, bytes: Bytes) -> Result<u64, NoMemory>
        ensures number { IfOk result (λ number. number ≡ place_in same_bytes self.old.blobs bytes) }
        ensures equal { IfOk result (λ number. slice_get self.new.blobs number ≡ Some bytes) }
        ensures blobs { OnOk result (self.new.blobs ≡ interned same_bytes self.old.blobs bytes) }
        ensures recipes { self.new.recipes ≡ self.old.recipes }
        ensures err { OnErr result (self.new ≡ self.old) }
    {
        let place = place_of_blob(&self.blobs, bytes.as_slice());
        if place == self.blobs.len() {
            self.blobs.push(bytes)?;
        }
        Ok(place as u64)
    }

    /// The key of the equal recipe, or of this one, which is then added.
    pub fn intern(&mut self, recipe: Recipe) -> Result<Key, NoMemory>
        requires below { IsBelow (length self.old.recipes) (length self.old.blobs) recipe }
        ensures key { IfOk result (λ key. key.0 ≡ place_in same_recipe self.old.recipes recipe) }
        ensures equal { IfOk result (λ key. slice_get self.new.recipes key.0 ≡ Some recipe) }
        ensures recipes { OnOk result (self.new.recipes ≡ interned same_recipe self.old.recipes recipe) }
        ensures blobs { self.new.blobs ≡ self.old.blobs }
        ensures within { IfOk result (λ key. key.0 < length self.new.recipes) }
        ensures grown { length self.old.recipes ≤ length self.new.recipes }
        ensures err { OnErr result (self.new ≡ self.old) }
    {
        let place = place_of(&self.recipes, &recipe);
        if place == self.recipes.len() {
            self.recipes.push(recipe)?;
        }
        Ok(Key(place as u64))
    }
}

/// The place of the first recipe that is equal, or the number of recipes.
fn place_of(recipes: &[Recipe], recipe: &Recipe) -> usize
    ensures place { result ≡ place_in same_recipe recipes.now recipe.now }
    ensures within { result ≤ length recipes.now }
    ensures equal { result < length recipes.now → slice_get recipes.now result ≡ Some recipe.now }
{
    for (place, held) in recipes.iter().enumerate() {
        if recipe.is_same(held) {
            return place;
        }
    }
    recipes.len()
}

/// The same for blobs.
fn place_of_blob(blobs: &[Bytes], bytes: &[u8]) -> usize
    ensures place { result ≡ place_in same_bytes blobs.now bytes.now }
    ensures within { result ≤ length blobs.now }
    ensures equal { result < length blobs.now → slice_get blobs.now result ≡ Some bytes.now }
{
    for (place, held) in blobs.iter().enumerate() {
        if bytes == held.as_slice() {
            return place;
        }
    }
    blobs.len()
}
