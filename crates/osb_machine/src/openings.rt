//! What the shared state begins with.
ghost use Rattle.std.specs.Prelude.{◌≡◌, ◌≤◌, nat_lt, length, map, count_by, IfOk};
ghost use Rattle.osb_cache.specs.Caches.{chunks_at};

use osb_cache::{Cache, Stored};
use osb_recipe::Task;
use osb_tree::{Chunk, Key, List, NoMemory, TaskNo};
use std::alloc::Global;

pub(crate) fn deps_of(alloc: Global, tasks: &[Task]) -> Result<Vec<List<TaskNo>>, NoMemory>
    ensures { IfOk result (λ deps. deps.items ≡ map (λ task. task.deps) tasks.now) }
{
    let mut deps = Vec::with_capacity(alloc, tasks.len())?;
    for task in tasks {
        deps.push(List::new(Vec::from_slice(alloc, task.deps.as_slice())?))?;
    }
    Ok(deps)
}

pub(crate) fn marked_of(alloc: Global, tasks: &[Task]) -> Result<Vec<List<Key>>, NoMemory>
    ensures { IfOk result (λ marked. marked.items ≡ map (λ task. task.marked) tasks.now) }
{
    let mut marked = Vec::with_capacity(alloc, tasks.len())?;
    for task in tasks {
        marked.push(List::new(Vec::from_slice(alloc, task.marked.as_slice())?))?;
    }
    Ok(marked)
}

pub(crate) fn keys_of(alloc: Global, opening: &[Stored<Chunk>]) -> Result<Vec<Key>, NoMemory>
    ensures { IfOk result (λ keys. keys.items ≡ map (λ stored. stored.key) opening.now) }
{
    let mut keys = Vec::with_capacity(alloc, opening.len())?;
    for stored in opening {
        keys.push(stored.key)?;
    }
    Ok(keys)
}

/// How many keys have an entry with some chunks.
pub(crate) fn count_kept(cache: &Cache<Chunk>, keys: &[Key]) -> usize
    ensures kept { result ≡ count_by (λ key. nat_lt 0 (length (chunks_at key.0 cache.now.lines))) keys.now }
    ensures within { result ≤ length keys.now }
{
    let mut kept = 0;
    for key in keys {
        if cache.chunk_count(*key) > 0 {
            kept += 1;
        }
    }
    kept
}
