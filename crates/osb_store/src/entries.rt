//! Entries, from their bytes.
ghost use Rattle.std.specs.Prelude.{◌≡◌, ◌^◌, ◌≤◌, true, List, sum_by};
ghost use Rattle.std.specs.List.{AllByRecursion};
ghost use Rattle.std.specs.Map.{keys_of};
ghost use Rattle.osb_tree.specs.Chunks.{AreOfATree, chunks_of, pairs_of};
ghost use Rattle.osb_tree.specs.Paths.{IsPath};
ghost use Rattle.osb_tree.specs.Trees.{Listing};
ghost use Rattle.osb_cache.specs.declared.answers.Stored.{Stored};
ghost use Rattle.osb_store.specs.Entries.{AreReadable, GivesSuch, entry_at, is_entry, is_of_a_tree, is_well_entry, pairs_at, AreKeysOf};
ghost use Rattle.osb_store.specs.Reading.{made_at};
ghost use Rattle.osb_store.specs.Rules.{entry_size};

use crate::fields::number_of;
use crate::nodes::pair_of;
use crate::steps::Stop;
use osb_base::{Key, List};
use osb_cache::Stored;
use osb_tree::{CHUNK_PAIRS, Chunk, Node, Path, Shared, Tree};
use std::alloc::Global;
use std::collections::BTreeSet;

/// What all entries of a store together may have, in bytes.
const MOST_BYTES: u64 = 1 << 62;

#[tactic(auto, unfolding(crate::specs::Entries::entry_at))]
pub(crate) fn entry_of(alloc: Global, bytes: &[u8]) -> Result<(Stored<Chunk>, &[u8]), Stop>
    ensures { GivesSuch (λ entry. AreOfATree entry.chunks) (λ x. (x.0, x.1.now)) result (entry_at bytes.now) }
{
    let (key, rest) = number_of(bytes)?;
    let (count, rest) = number_of(rest)?;
    let (chunks, rest) = chunks_at(alloc, count, rest)?;
    let entry = Stored {
        key: Key(key),
        chunks: List::new(chunks),
    };
    Ok((entry, rest))
}

/// So many pairs, in chunks.
fn chunks_at(alloc: Global, count: u64, bytes: &[u8]) -> Result<(Vec<Shared<Chunk>>, &[u8]), Stop>
    ensures { GivesSuch (λ chunks. AreReadable (pairs_of chunks)) (λ x. (x.0.items, x.1.now)) result (made_at chunks_of (pairs_at count) bytes.now) }
{
    let mut chunks = Vec::new(alloc);
    let mut rest = bytes;
    let mut left = count;
    while left > 0 {
        let next = left.min(CHUNK_PAIRS as u64);
        let (chunk, behind) = chunk_of(alloc, next, rest)?;
        chunks.push(chunk)?;
        rest = behind;
        left -= next;
    }
    Ok((chunks, rest))
}

fn chunk_of(alloc: Global, count: u64, bytes: &[u8]) -> Result<(Shared<Chunk>, &[u8]), Stop>
    requires { count ≤ 256 }
    ensures { GivesSuch AreReadable (λ x. (x.0, x.1.now)) result (pairs_at count bytes.now) }
{
    let (pairs, rest) = pairs_of(alloc, count, bytes)?;
    if !Chunk::can_have(&pairs) {
        return Err(Stop::Broken);
    }
    let chunk = Chunk::from_pairs(pairs)?;
    Ok((Shared::new(alloc, chunk)?, rest))
}

fn pairs_of(alloc: Global, count: u64, bytes: &[u8]) -> Result<(Vec<(Path, Node)>, &[u8]), Stop>
    ensures { GivesSuch (λ pairs. AllByRecursion IsPath (keys_of pairs)) (λ x. (x.0.items, x.1.now)) result (pairs_at count bytes.now) }
{
    let mut pairs = Vec::new(alloc);
    let mut rest = bytes;
    for _ in 0..count {
        let (pair, behind) = pair_of(alloc, rest)?;
        pairs.push(pair)?;
        rest = behind;
    }
    Ok((pairs, rest))
}

/// Whether an entry may stand in a store with so many recipes, behind entries with these keys and so many bytes.
pub(crate) fn fits_behind(keys: u64, seen: &BTreeSet<u64>, sum: u64, entry: &Stored<Chunk>) -> bool
    requires { sum ≤ 2 ^ 62 }
    ensures { (before : List (Stored Listing)) → AreKeysOf seen.now before → sum ≡ sum_by entry_size before → result ≡ is_entry keys before entry.now }
{
    is_well(keys, sum, entry) && !seen.contains(&entry.key.0)
}

/// The same, if none of them has its key.
fn is_well(keys: u64, sum: u64, entry: &Stored<Chunk>) -> bool
    requires { sum ≤ 2 ^ 62 }
    ensures { result ≡ is_well_entry keys sum entry.now }
{
    entry.key.0 < keys && is_of_a_tree(entry) && size_of(entry) <= MOST_BYTES - sum
}

fn is_of_a_tree(entry: &Stored<Chunk>) -> bool
    ensures { result ≡ is_of_a_tree entry.now.chunks }
{
    Tree::check(entry.chunks.as_slice()).is_none()
}

/// How many bytes a tree has.
pub(crate) fn size_of(entry: &Stored<Chunk>) -> u64
    requires { is_of_a_tree entry.now.chunks ≡ true }
    ensures size { result ≡ entry_size entry.now }
    ensures small { result ≤ 268435456 }
{
    let mut size = 0;
    for chunk in entry.chunks.as_slice() {
        size += chunk.get().weight();
    }
    size
}
