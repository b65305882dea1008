//! Which keys builds mark.
ghost use Rattle.std.specs.Prelude.{◌≡◌, ◌++◌, [], IfOk, OnOk, slice_get, unwrap_or};
ghost use Rattle.osb_plan.specs.Planning.{has_mark, key_if, marked_from, build_marked, marks_of, marked_by};

use crate::Build;
use osb_base::{Key, List, NoMemory};
use std::alloc::Global;

/// The keys that some build marks.
pub(crate) fn all_marked(
    alloc: Global,
    builds: &[Build],
    chains: &[List<(usize, List<Key>)>],
) -> Result<Vec<Key>, NoMemory>
    ensures { IfOk result (λ marked. marked.items ≡ marked_by builds.now 0 chains.now) }
{
    let mut marked = Vec::new(alloc);
    for (number, chains) in chains.iter().enumerate() {
        add_build_marked(marks_of(builds, number), chains.as_slice(), &mut marked)?;
    }
    Ok(marked)
}

fn marks_of(builds: &[Build], number: usize) -> &[List<bool>]
    ensures { result.now ≡ marks_of (slice_get builds.now number) }
{
    match builds.get(number) {
        Some(build) => build.marks.as_slice(),
        None => &[],
    }
}

fn add_build_marked(
    marks: &[List<bool>],
    chains: &[(usize, List<Key>)],
    marked: &mut Vec<Key>,
) -> Result<(), NoMemory>
    ensures { OnOk result (marked.new.items ≡ marked.old.items ++ build_marked marks.now chains.now) }
{
    for (place, chain) in chains {
        add_marked(marks_at(marks, *place), chain.as_slice(), marked)?;
    }
    Ok(())
}

/// The marks of a pipeline's stages.
fn marks_at(marks: &[List<bool>], place: usize) -> &[bool]
    ensures { result.now ≡ unwrap_or (slice_get marks.now place) [] }
{
    match marks.get(place) {
        Some(marks) => marks.as_slice(),
        None => &[],
    }
}

fn add_marked(marks: &[bool], keys: &[Key], marked: &mut Vec<Key>) -> Result<(), NoMemory>
    ensures { OnOk result (marked.new.items ≡ marked.old.items ++ marked_from marks.now 0 keys.now) }
{
    for (place, key) in keys.iter().enumerate() {
        push_if(has_mark(marks, place), *key, marked)?;
    }
    Ok(())
}

fn push_if(kept: bool, key: Key, marked: &mut Vec<Key>) -> Result<(), NoMemory>
    ensures { OnOk result (marked.new.items ≡ marked.old.items ++ key_if kept key) }
{
    if kept {
        marked.push(key)?;
    }
    Ok(())
}

fn has_mark(marks: &[bool], place: usize) -> bool
    ensures { result ≡ has_mark marks.now place }
{
    marks.get(place).copied().unwrap_or(false)
}
