//! Chunks read pair by pair, without a tree: each pair is compared with the one before it.
ghost use Rattle.std.specs.Prelude.{◌≡◌, ◌+◌, ◌<◌, ◌≤◌, ◌++◌, ◌↔◌, length, take, option_copied, IsTrue, false, MatchOption};
ghost use Rattle.osb_tree.specs.Nodes.{InRange};
ghost use Rattle.osb_tree.specs.Trees.{Listing};
ghost use Rattle.osb_tree.specs.Paths.{IsPath, parent_of};
ghost use Rattle.osb_tree.specs.Chunks.{AreOfATree, BeginsATree, IsMisfit, is_cut};
ghost use Rattle.osb_tree.specs.Readings.{Fits, IsRead, goes_on, is_open};
ghost use Rattle.std.specs.Option.{option_map_or};

use crate::chunks::{CHUNK_PAIRS, Chunk};
use crate::places::{is_directory, weight};
use crate::trees::{MAX_PATHS, MAX_SIZE};
use crate::{Name, Node, Path, Shared};

/// The first place at which chunks are not those of a tree.
pub(crate) fn misfit(chunks: &[Shared<Chunk>]) -> Option<usize>
    ensures misfit { MatchOption result (AreOfATree chunks.now) (IsMisfit chunks.now) }
{
    let mut last = None;
    let mut count = 0;
    let mut size = 0;
    for chunk in chunks {
        let pairs = chunk.get().pairs();
        let fitting = count_fitting(last, count, size, pairs);
        if fitting < pairs.len() {
            return Some(count + fitting);
        }
        last = pairs.last().or(last);
        count += pairs.len();
        size += chunk.get().weight();
    }
    if is_cut(chunks) { None } else { Some(count) }
}

/// How many of some pairs a tree's listing can have behind those that were read.
fn count_fitting(
    last: Option<&(Path, Node)>,
    count: usize,
    size: u64,
    pairs: &[(Path, Node)],
) -> usize
    requires count { count ≤ 262144 }
    requires size { size ≤ 268435456 }
    ensures within { result ≤ length pairs.now }
    ensures fitting { (read : Listing) → IsRead read (option_copied last.entry) count size → BeginsATree read → BeginsATree (read ++ take result pairs.now) }
    ensures first { (read : Listing) → IsRead read (option_copied last.entry) count size → BeginsATree read → result < length pairs.now → ¬ BeginsATree (read ++ take (result + 1) pairs.now) }
{
    let mut before = last;
    let mut total = size;
    for (i, pair) in pairs.iter().enumerate() {
        if !fits(before, count + i, total, pair) {
            return i;
        }
        before = Some(pair);
        total += weight(&pair.0, &pair.1);
    }
    pairs.len()
}

/// Whether a tree's listing can have a pair behind those that were read.
fn fits(last: Option<&(Path, Node)>, count: usize, size: u64, pair: &(Path, Node)) -> bool
    requires { size ≤ 268435456 }
    ensures path { IsPath pair.now.0 }
    ensures fits { IsTrue result ↔ Fits (option_copied last.entry) count size pair.now }
{
    goes_on(last, pair) && count < MAX_PATHS && weight(&pair.0, &pair.1) <= MAX_SIZE - size
}

/// Whether a listing goes on with a pair behind its last one.
fn goes_on(last: Option<&(Path, Node)>, pair: &(Path, Node)) -> bool
    ensures path { IsPath pair.now.0 }
    ensures goes_on { IsTrue result ↔ (InRange pair.now.1 × IsTrue (goes_on (option_copied last.entry) pair.now)) }
{
    let names = pair.0.names();
    pair.1.in_range()
        && match last {
            None => names.is_empty() && is_directory(&pair.1),
            Some(last) => last.0 < pair.0 && stands_open(last, names),
        }
}

/// Whether the directory of a path is that of the last pair, or one above it.
fn stands_open(last: &(Path, Node), path: &[Name]) -> bool
    ensures { result ≡ option_map_or (is_open last.now) (parent_of path.now) false }
{
    let Some((_, parent)) = path.split_last() else {
        return false;
    };
    let names = last.0.names();
    names.starts_with(parent) && (parent.len() < names.len() || is_directory(&last.1))
}

/// Whether the last chunk has some pairs, and every chunk before it is full.
fn is_cut(chunks: &[Shared<Chunk>]) -> bool
    ensures { result ≡ is_cut chunks.now }
{
    let Some((last, full)) = chunks.split_last() else {
        return false;
    };
    !last.get().is_empty() && full.iter().all(|chunk| chunk.get().len() == CHUNK_PAIRS)
}
