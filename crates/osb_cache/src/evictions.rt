//! Which entries leave a cache, and that they leave.
ghost use Rattle.std.specs.Prelude.{◌≡◌, ◌↔◌, ℕ, ◌+◌, ◌-◌, ◌^◌, ◌<◌, ◌≤◌, ◌++◌, ◌∷◌, [], filter, length, count_by, vec_len, vec_capacity, IfOk, OnOk, OnErr, IsNone, IfSome};
ghost use Rattle.osb_cache.specs.Caches.{has_key, sizes, pinned_sizes, evict, leaves, stays, Rises};
ghost use Rattle.osb_cache.specs.Parts.{Leaves};

use crate::slots::{Slot, lines_of};
use crate::stages::Stage;
use osb_base::{Key, List, NoMemory};
use osb_evict::{Victims, victims};
use std::alloc::Global;

fn leaves<C: Drop>(keys: &[Key], slot: &Slot<C>) -> bool
    ensures { result ≡ leaves keys.now slot.now }
{
    keys.iter().any(|key| slot.has_key(*key))
}

fn stays<C: Drop>(keys: &[Key], slot: &Slot<C>) -> bool
    ensures { result ≡ stays keys.now slot.now }
{
    !leaves(keys, slot)
}

pub(crate) fn total_size<C: Drop>(slots: &[Slot<C>]) -> u64
    requires { sizes slots.now < 2 ^ 64 }
    ensures { result ≡ sizes slots.now }
{
    slots.iter().map(|slot| slot.size()).sum()
}

/// The keys of the entries that leave so that beside what is held there is room, `None` where there is none.
pub(crate) fn leaving<C: Drop>(
    alloc: Global,
    slots: &[Slot<C>],
    held: u64,
    need: u64,
    limit: u64,
) -> Result<Option<List<Key>>, NoMemory>
    requires small { sizes slots.now + held + need ≤ 2 ^ 63 }
    requires rising { (high : ℕ) × Rises 0 slots.now high }
    requires apart { (key : ℕ) → count_by (has_key key) slots.now ≤ 1 }
    ensures full { IfOk result
        (λ keys. IsNone keys ↔ (limit < pinned_sizes slots.now + held + need)) }
    ensures left { IfOk result
        (λ keys. IfSome keys (λ keys. Leaves keys slots.now (evict (sizes slots.now + held + need - limit) slots.now) (length keys))) }
{
    let lines = lines_of(alloc, slots)?;
    match victims(alloc, &lines, held, need, limit)? {
        Victims::Full => Ok(None),
        Victims::Take(keys) => Ok(Some(keys)),
    }
}

pub(crate) fn remove_keys<C: Drop>(slots: &mut Vec<Slot<C>>, keys: &[Key])
    ensures items { slots.new.items ≡ filter (stays keys.now) slots.old.items }
    ensures capacity { vec_capacity slots.new ≡ vec_capacity slots.old }
{
    slots.retain(|slot| stays(keys, slot));
}

/// Stages this, with a place for the entry that it becomes.
pub(crate) fn add_stage<C: Drop>(
    slots: &mut Vec<Slot<C>>,
    stages: &mut Vec<Stage<C>>,
    stage: Stage<C>,
) -> Result<(), NoMemory>
    requires { vec_len slots.old + vec_len stages.old ≤ vec_capacity slots.old }
    ensures slots { slots.new.items ≡ slots.old.items }
    ensures ok { OnOk result (stages.new.items ≡ stages.old.items ++ stage ∷ []) }
    ensures err { OnErr result (stages.new.items ≡ stages.old.items) }
    ensures room { vec_len slots.new + vec_len stages.new ≤ vec_capacity slots.new }
{
    slots.reserve(stages.len() + 1)?;
    stages.push(stage)?;
    Ok(())
}
