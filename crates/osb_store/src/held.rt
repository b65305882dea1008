//! What is read of a store, with what tells whether an item is there already.
ghost use Rattle.std.specs.Prelude.{◌≡◌, ◌==◌, ◌+◌, ◌≤◌, ◌^◌, ◌∷◌, ◌++◌, [], true, length, sum_by, IfOk};
ghost use Rattle.std.specs.List.{list_any};
ghost use Rattle.osb_recipe.specs.Recipes.{IsBelow};
ghost use Rattle.osb_store.specs.Entries.{is_entry, is_of_a_tree};
ghost use Rattle.osb_store.specs.Places.{same_text};
ghost use Rattle.osb_store.specs.Rules.{entry_size};
ghost use Rattle.osb_store.specs.Texts.{recipe_text};

use crate::entries::{fits_behind, size_of};
use osb_base::{Bytes, List, NoMemory};
use osb_cache::Stored;
use osb_recipe::{Recipe, Table};
use osb_tree::Chunk;
use std::alloc::Global;
use std::collections::BTreeSet;
use std::marker::Model;

/// The blobs of a table that has no recipe yet.
#[derive(Drop)]
pub(crate) struct Blobs<'a> {
    table: Table,
    seen: BTreeSet<&'a [u8]>,
}

impl<'a> Model for Blobs<'a> {
    ghost use Rattle.std.specs.Prelude.{◌≡◌, ℕ, List, []};
    ghost use Rattle.std.specs.List.{list_any};
    ghost use Rattle.std.specs.BTreeSet.{contains_by};
    ghost use Rattle.std.specs.Cmp.Lexicographic.{slice_cmp};
    ghost use Rattle.std.specs.Ordering.{nat_cmp};
    ghost use Rattle.osb_store.specs.Places.{same_text};

    ghost Value = { List (List ℕ) };

    ghost view = { λ b. b.table.blobs };

    ghost invariant = { λ b. (b.table.recipes ≡ []) × ((text : List ℕ) → contains_by (λ held. slice_cmp nat_cmp text held.now) b.seen ≡ list_any (same_text text) b.table.blobs) };
}

impl<'a> Blobs<'a> {
    pub(crate) fn new(alloc: Global) -> Result<Self, NoMemory>
        ensures { IfOk result (λ blobs. blobs ≡ []) }
    {
        Ok(Blobs {
            table: Table::new(alloc)?,
            seen: BTreeSet::new(alloc),
        })
    }

    pub(crate) fn has(&self, blob: &[u8]) -> bool
        ensures { result ≡ list_any (same_text blob.now) self.now }
    {
        self.seen.contains(blob)
    }

    pub(crate) fn with(mut self, alloc: Global, blob: &'a [u8]) -> Result<Self, NoMemory>
        ensures { IfOk result (λ blobs. blobs ≡ self.entry ++ blob.now ∷ []) }
    {
        let bytes = Bytes::new(Vec::from_slice(alloc, blob)?);
        self.seen.insert(blob)?;
        self.table.add_blob(bytes)?;
        Ok(self)
    }

    pub(crate) fn into_table(self) -> Table
        ensures blobs { result.blobs ≡ self.entry }
        ensures recipes { result.recipes ≡ [] }
    {
        self.table
    }
}

/// A table with the texts of its recipes.
#[derive(Drop)]
pub(crate) struct Recipes<'a> {
    table: Table,
    seen: BTreeSet<&'a [u8]>,
}

impl<'a> Model for Recipes<'a> {
    ghost use Rattle.std.specs.Prelude.{◌≡◌, ℕ, List};
    ghost use Rattle.std.specs.List.{list_any};
    ghost use Rattle.std.specs.BTreeSet.{contains_by};
    ghost use Rattle.std.specs.Cmp.Lexicographic.{slice_cmp};
    ghost use Rattle.std.specs.Ordering.{nat_cmp};
    ghost use Rattle.osb_recipe.specs.Tables.{TableData};
    ghost use Rattle.osb_store.specs.Places.{same_text};
    ghost use Rattle.osb_store.specs.Texts.{recipe_text};

    ghost Value = { TableData };

    ghost view = { λ r. r.table };

    ghost invariant = { λ r. (text : List ℕ) → contains_by (λ held. slice_cmp nat_cmp text held.now) r.seen ≡ list_any (λ recipe. same_text text (recipe_text recipe)) r.table.recipes };
}

impl<'a> Recipes<'a> {
    pub(crate) fn new(alloc: Global, table: Table) -> Self
        requires { table.recipes ≡ [] }
        ensures { result ≡ table }
    {
        Recipes {
            table,
            seen: BTreeSet::new(alloc),
        }
    }

    pub(crate) fn table(&self) -> &Table
        ensures { result.now ≡ self.now }
    {
        &self.table
    }

    pub(crate) fn has(&self, text: &[u8]) -> bool
        ensures { result ≡ list_any (λ recipe. same_text text.now (recipe_text recipe)) self.now.recipes }
    {
        self.seen.contains(text)
    }

    pub(crate) fn with(mut self, recipe: Recipe, text: &'a [u8]) -> Result<Self, NoMemory>
        requires below { IsBelow (length self.recipes) (length self.blobs) recipe }
        requires text { text.now ≡ recipe_text recipe }
        ensures recipes { IfOk result (λ made. made.recipes ≡ self.entry.recipes ++ recipe ∷ []) }
        ensures blobs { IfOk result (λ made. made.blobs ≡ self.entry.blobs) }
    {
        self.seen.insert(text)?;
        self.table.add(recipe)?;
        Ok(self)
    }

    pub(crate) fn into_table(self) -> Table
        ensures { result ≡ self.entry }
    {
        self.table
    }
}

/// Entries with their keys and all their bytes.
#[derive(Drop)]
pub(crate) struct Entries {
    entries: Vec<Stored<Chunk>>,
    keys: BTreeSet<u64>,
    size: u64,
}

impl Model for Entries {
    ghost use Rattle.std.specs.Prelude.{◌≡◌, ◌==◌, ◌≤◌, ◌^◌, ℕ, List, sum_by};
    ghost use Rattle.std.specs.List.{list_any};
    ghost use Rattle.std.specs.BTreeSet.{contains};
    ghost use Rattle.std.specs.Ordering.{nat_cmp};
    ghost use Rattle.osb_tree.specs.Trees.{Listing};
    ghost use Rattle.osb_cache.specs.declared.answers.Stored.{Stored};
    ghost use Rattle.osb_store.specs.Rules.{entry_size};

    ghost Value = { List (Stored Listing) };

    ghost view = { λ e. e.entries.items };

    ghost invariant = { λ e. (e.size ≡ sum_by entry_size e.entries.items) × (e.size ≤ 2 ^ 62) × ((key : ℕ) → contains nat_cmp e.keys key ≡ list_any (λ held. held.key.0 == key) e.entries.items) };
}

impl Entries {
    pub(crate) fn new(alloc: Global) -> Self
        ensures { result ≡ [] }
    {
        Entries {
            entries: Vec::new(alloc),
            keys: BTreeSet::new(alloc),
            size: 0,
        }
    }

    /// Whether an entry may stand behind them in a store with so many recipes.
    pub(crate) fn fits(&self, keys: u64, entry: &Stored<Chunk>) -> bool
        ensures { result ≡ is_entry keys self.now entry.now }
    {
        fits_behind(keys, &self.keys, self.size, entry)
    }

    pub(crate) fn with(mut self, entry: Stored<Chunk>) -> Result<Self, NoMemory>
        requires tree { is_of_a_tree entry.chunks ≡ true }
        requires small { sum_by entry_size self + entry_size entry ≤ 2 ^ 62 }
        ensures { IfOk result (λ made. made ≡ self ++ entry ∷ []) }
    {
        self.size += size_of(&entry);
        self.keys.insert(entry.key.0)?;
        self.entries.push(entry)?;
        Ok(self)
    }

    pub(crate) fn into_list(self) -> List<Stored<Chunk>>
        ensures { result ≡ self }
    {
        List::new(self.entries)
    }
}
