//! The entries of a cache, and what is read and changed of them by key.
ghost use Rattle.std.specs.Prelude.{◌≡◌, ◌+◌, ◌^◌, ◌<◌, ◌≤◌, true, Some, length, position, slice_get, vec_capacity, count_by, sum_by, ◌==◌, IfOk, OnOk, OnErr, map};
ghost use Rattle.osb_cache.specs.Edits.{remove_first, update_first, IsFirst};
ghost use Rattle.osb_cache.specs.Caches.{has_key, is_committed, chunks_at, pins_in, pins_on, touched, touch, unpinned, weighted, stored_of, opening_line, opening_lines};

use crate::{Pin, Stored};
use osb_base::{Key, List, NoMemory, Weighed, WorkerNo};
use osb_evict::Line;
use osb_tree::Shared;
use std::alloc::Global;
use std::marker::Model;

/// An entry. The worker of each pin is in `pins`.
#[derive(Drop)]
pub(crate) struct Slot<C> {
    key: Key,
    chunks: Vec<Shared<C>>,
    size: u64,
    used: u64,
    pins: Vec<u32>,
}

impl<C> Model for Slot<C> {
    ghost use Rattle.osb_cache.specs.Caches.{Line as LineData};

    ghost Value = { LineData C };

    ghost view = { λ s. record { key = s.key.0; chunks = s.chunks.items; size = s.size; used = s.used; pins = s.pins.items } };
}

fn pin_place(pins: &[u32], worker: u32) -> Option<usize>
    ensures { result ≡ position (λ pin. pin == worker) pins.now }
{
    pins.iter().position(|pin| *pin == worker)
}

fn remove_pin(pins: &mut Vec<u32>, worker: u32)
    requires { 0 < count_by (λ pin. pin == worker) pins.old.items }
    ensures { pins.new.items ≡ remove_first (λ pin. pin == worker) pins.old.items }
{
    match pin_place(pins, worker) {
        Some(place) => {
            pins.remove(place);
        }
        None => unreachable!(),
    }
}

impl<C: Drop> Slot<C> {
    pub(crate) fn new(
        key: Key,
        chunks: Vec<Shared<C>>,
        size: u64,
        used: u64,
        pins: Vec<u32>,
    ) -> Self
        ensures { result ≡ record { key = key.0; chunks = chunks.items; size = size; used = used; pins = pins.items } }
    {
        Slot {
            key,
            chunks,
            size,
            used,
            pins,
        }
    }

    pub(crate) fn has_key(&self, key: Key) -> bool
        ensures { result ≡ has_key key.0 self.now }
    {
        self.key.0 == key.0
    }

    pub(crate) fn size(&self) -> u64
        ensures { result ≡ self.now.size }
    {
        self.size
    }

    fn chunk_count(&self) -> usize
        ensures { result ≡ length self.now.chunks }
    {
        self.chunks.len()
    }

    fn line(&self) -> Line
        ensures { result ≡ weighted self.now }
    {
        Line {
            key: self.key,
            size: self.size,
            used: self.used,
            pins: self.pins.len() as u64,
        }
    }

    fn pin_count(&self, worker: WorkerNo) -> usize
        ensures { result ≡ pins_in worker.0 self.now }
    {
        self.pins.iter().filter(|pin| **pin == worker.0).count()
    }

    fn touch(&mut self, worker: WorkerNo, clock: u64) -> Result<(), NoMemory>
        ensures ok { OnOk result (self.new ≡ touched clock worker.0 self.old) }
        ensures err { OnErr result (self.new ≡ self.old) }
    {
        self.pins.push(worker.0)?;
        self.used = clock;
        Ok(())
    }

    fn unpin(&mut self, worker: WorkerNo)
        requires { 0 < pins_in worker.0 self.old }
        ensures { self.new ≡ unpinned worker.0 self.old }
    {
        remove_pin(&mut self.pins, worker.0);
    }

    fn chunk(&self, i: usize) -> Result<Shared<C>, NoMemory>
        requires { i < length self.now.chunks }
        ensures { IfOk result (λ chunk. slice_get self.now.chunks i ≡ Some chunk) }
    {
        self.chunks[i].share()
    }

    fn into_stored(self) -> Stored<C>
        ensures { result ≡ stored_of self }
    {
        let Slot {
            key,
            chunks,
            size: _,
            used: _,
            pins: _,
        } = self;
        Stored {
            key,
            chunks: List::new(chunks),
        }
    }
}

pub(crate) fn slot_place<C: Drop>(slots: &[Slot<C>], key: Key) -> Option<usize>
    ensures { result ≡ position (has_key key.0) slots.now }
{
    slots.iter().position(|slot| slot.has_key(key))
}

/// The place of the entry of a key that is committed.
fn committed_place<C: Drop>(slots: &[Slot<C>], key: Key) -> usize
    requires { is_committed key.0 slots.now ≡ true }
    ensures { IsFirst (has_key key.0) slots.now result }
{
    match slot_place(slots, key) {
        Some(place) => place,
        None => unreachable!(),
    }
}

pub(crate) fn is_committed<C: Drop>(slots: &[Slot<C>], key: Key) -> bool
    ensures { result ≡ is_committed key.0 slots.now }
{
    slots.iter().any(|slot| slot.has_key(key))
}

/// The place of the first key of a list that is committed.
pub(crate) fn hit_place<C: Drop>(slots: &[Slot<C>], keys: &[Key]) -> Option<usize>
    ensures { result ≡ position (λ key. is_committed key.0 slots.now) keys.now }
{
    keys.iter().position(|key| is_committed(slots, *key))
}

pub(crate) fn chunk_count<C: Drop>(slots: &[Slot<C>], key: Key) -> usize
    ensures { result ≡ length (chunks_at key.0 slots.now) }
{
    match slot_place(slots, key) {
        Some(place) => slots[place].chunk_count(),
        None => 0,
    }
}

pub(crate) fn pin_count<C: Drop>(slots: &[Slot<C>], pin: Pin) -> usize
    requires { count_by (has_key pin.key.0) slots.now ≤ 1 }
    ensures { result ≡ pins_on pin.worker.0 pin.key.0 slots.now }
{
    match slot_place(slots, pin.key) {
        Some(place) => slots[place].pin_count(pin.worker),
        None => 0,
    }
}

pub(crate) fn chunk_of<C: Drop>(
    slots: &[Slot<C>],
    key: Key,
    i: usize,
) -> Result<Shared<C>, NoMemory>
    requires { i < length (chunks_at key.0 slots.now) }
    ensures { IfOk result (λ chunk. slice_get (chunks_at key.0 slots.now) i ≡ Some chunk) }
{
    let place = committed_place(slots, key);
    slots[place].chunk(i)
}

/// Puts the entry of the key, which there is, behind the others, with a pin more.
pub(crate) fn touch_slot<C: Drop>(
    slots: &mut Vec<Slot<C>>,
    worker: WorkerNo,
    key: Key,
    clock: u64,
) -> Result<(), NoMemory>
    requires { is_committed key.0 slots.old.items ≡ true }
    ensures ok { OnOk result (slots.new.items ≡ touch clock worker.0 key.0 slots.old.items) }
    ensures err { OnErr result (slots.new.items ≡ slots.old.items) }
    ensures capacity { vec_capacity slots.old ≤ vec_capacity slots.new }
{
    let place = committed_place(slots, key);
    let slot = &mut slots[place];
    slot.touch(worker, clock)?;
    let slot = slots.remove(place);
    slots.push_reserved(slot);
    Ok(())
}

pub(crate) fn unpin_slot<C: Drop>(slots: &mut Vec<Slot<C>>, pin: Pin)
    requires stands { 0 < pins_on pin.worker.0 pin.key.0 slots.old.items }
    requires apart { count_by (has_key pin.key.0) slots.old.items ≤ 1 }
    ensures items { slots.new.items ≡ update_first (has_key pin.key.0) (unpinned pin.worker.0) slots.old.items }
    ensures capacity { vec_capacity slots.old ≤ vec_capacity slots.new }
{
    let place = committed_place(slots, pin.key);
    let slot = &mut slots[place];
    slot.unpin(pin.worker);
}

/// What chunks weigh together.
pub(crate) fn weight_of<C: Weighed + Drop>(chunks: &[Shared<C>]) -> u64
    requires { sum_by C.weight_of chunks.now < 2 ^ 64 }
    ensures { result ≡ sum_by C.weight_of chunks.now }
{
    chunks.iter().map(|chunk| chunk.get().weight()).sum()
}

fn opening_slot<C: Weighed + Drop>(alloc: Global, stored: Stored<C>, used: u64) -> Slot<C>
    requires { sum_by C.weight_of stored.chunks < 2 ^ 64 }
    ensures { result ≡ opening_line C.weight_of used stored }
{
    let Stored { key, chunks } = stored;
    let size = weight_of(chunks.as_slice());
    Slot::new(key, chunks.into_vec(), size, used, Vec::new(alloc))
}

/// The entries that a cache opens with, used one after another.
pub(crate) fn opening_slots<C: Weighed + Drop>(
    alloc: Global,
    entries: Vec<Stored<C>>,
) -> Result<Vec<Slot<C>>, NoMemory>
    requires { sum_by (λ stored. sum_by C.weight_of stored.chunks) entries.items ≤ 2 ^ 62 }
    ensures { IfOk result (λ slots. slots.items ≡ opening_lines C.weight_of 1 entries.items) }
{
    let mut slots = Vec::with_capacity(alloc, entries.len())?;
    let mut used = 0;
    for stored in entries {
        used += 1;
        let slot = opening_slot(alloc, stored, used);
        slots.push(slot)?;
    }
    Ok(slots)
}

pub(crate) fn lines_of<C: Drop>(alloc: Global, slots: &[Slot<C>]) -> Result<Vec<Line>, NoMemory>
    ensures { IfOk result (λ lines. lines.items ≡ map weighted slots.now) }
{
    slots.iter().map(|slot| slot.line()).collect(alloc)
}

pub(crate) fn stored_of<C: Drop>(
    alloc: Global,
    slots: Vec<Slot<C>>,
) -> Result<Vec<Stored<C>>, NoMemory>
    ensures { IfOk result (λ entries. entries.items ≡ map stored_of slots.items) }
{
    slots
        .into_iter()
        .map(|slot| slot.into_stored())
        .collect(alloc)
}
