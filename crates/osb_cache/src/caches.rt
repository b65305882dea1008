ghost use Rattle.std.specs.Prelude.{◌≡◌, ◌↔◌, ℕ, ◌+◌, ◌^◌, ◌<◌, ◌≤◌, Some, length, map, slice_get, IfOk, OnOk, OnErr, IsTrue};
ghost use Rattle.osb_cache.specs.Caches.{counted, chunks_at, pins_on, look_reply, after_look, after_unpin, reserve_reply, after_reserve, after_put, after_commit, after_drop, opened, stored_of, CanOpen, HasDraft, CanPut, CanCommit};

use crate::evictions::{add_stage, leaving, remove_keys, total_size};
use crate::slots::{
    Slot, chunk_count, chunk_of, hit_place, is_committed, opening_slots, pin_count, stored_of,
    touch_slot, unpin_slot,
};
use crate::stages::{
    Stage, has_room, has_stage, held_size, is_staged, is_whole, put_chunk, take_stage,
};
use crate::{Look, Pin, Reserve, Stored, Ticket};
use osb_base::{Key, NoMemory, Weighed, WorkerNo};
use osb_tree::Shared;
use std::alloc::Global;
use std::marker::Model;

/// A cache, which contracts see as plain data: its limit and clock, its entries by rising `used`, and what is staged.
#[derive(Drop)]
pub struct Cache<C: Weighed + Drop> {
    limit: u64,
    clock: u64,
    counted: u64,
    slots: Vec<Slot<C>>,
    stages: Vec<Stage<C>>,
}

impl<C: Weighed + Drop> Model for Cache<C> {
    ghost use Rattle.osb_cache.specs.Caches.{CacheState};
    ghost use Rattle.osb_cache.specs.Parts.{state_of, IsCache};
    ghost use Rattle.std.specs.Prelude.{vec_capacity};

    ghost Value = { CacheState C };

    ghost view = { λ c. state_of c.limit c.clock c.slots.items c.stages.items };

    ghost invariant = { λ c. IsCache C.weight_of (state_of c.limit c.clock c.slots.items c.stages.items) c.counted (vec_capacity c.slots) };
}

impl<C: Weighed + Drop> Cache<C> {
    /// A cache of these entries, used in the order of the list, without those that are too much.
    pub fn open(alloc: Global, limit: u64, entries: Vec<Stored<C>>) -> Result<Self, NoMemory>
        requires can_open { CanOpen C.weight_of limit entries.items }
        ensures opened { IfOk result (λ cache. cache ≡ opened C.weight_of limit entries.items) }
    {
        let clock = entries.len() as u64;
        let mut slots = opening_slots(alloc, entries)?;
        let Some(keys) = leaving(alloc, &slots, 0, 0, limit)? else {
            unreachable!()
        };
        remove_keys(&mut slots, keys.as_slice());
        let counted = total_size(&slots);
        Ok(Cache {
            limit,
            clock,
            counted,
            slots,
            stages: Vec::new(alloc),
        })
    }

    pub fn limit(&self) -> u64
        ensures limit { result ≡ self.now.limit }
    {
        self.limit
    }

    pub fn clock(&self) -> u64
        ensures clock { result ≡ self.now.clock }
    {
        self.clock
    }

    /// What the entries weigh and what is reserved, together.
    pub fn counted(&self) -> u64
        ensures counted { result ≡ counted self.now }
        ensures within { result ≤ self.now.limit }
    {
        self.counted
    }

    /// Whether the pin stands: the test of the condition of `read` and `unpin`.
    pub fn is_pinned(&self, pin: Pin) -> bool
        ensures pinned { IsTrue result ↔ (0 < pins_on pin.worker.0 pin.key.0 self.now.lines) }
    {
        pin_count(&self.slots, pin) > 0
    }

    /// Whether the ticket stands: the test of the condition of `drop_ticket`.
    pub fn has_ticket(&self, ticket: Ticket) -> bool
        ensures stands { IsTrue result ↔ HasDraft self.now ticket.worker.0 ticket.key.0 }
    {
        has_stage(&self.stages, ticket)
    }

    /// Whether the chunk may be put: the test of the condition of `put`.
    pub fn can_put(&self, ticket: Ticket, chunk: &C) -> bool
        ensures can { IsTrue result
            ↔ CanPut C.weight_of self.now ticket.worker.0 ticket.key.0 chunk.now }
    {
        has_room(&self.stages, ticket, chunk)
    }

    /// Whether what is staged is whole: the test of the condition of `commit`.
    pub fn can_commit(&self, ticket: Ticket) -> bool
        ensures can { IsTrue result ↔ CanCommit C.weight_of self.now ticket.worker.0 ticket.key.0 }
    {
        is_whole(&self.stages, ticket)
    }

    /// How many chunks the entry of a key has.
    pub fn chunk_count(&self, key: Key) -> usize
        ensures chunks { result ≡ length (chunks_at key.0 self.now.lines) }
    {
        chunk_count(&self.slots, key)
    }

    /// Pins the first key of the list that is committed.
    pub fn look(&mut self, worker: WorkerNo, keys: &[Key]) -> Result<Look, NoMemory>
        requires clock { self.old.clock + 1 < 2 ^ 64 }
        ensures reply { IfOk result (λ look. look ≡ look_reply self.old keys.now) }
        ensures after { OnOk result
            (self.new ≡ after_look self.old worker.0 (look_reply self.old keys.now)) }
        ensures err { OnErr result (self.new ≡ self.old) }
    {
        let Some(place) = hit_place(&self.slots, keys) else {
            return Ok(Look::Miss);
        };
        let key = keys[place];
        let chunks = chunk_count(&self.slots, key);
        touch_slot(&mut self.slots, worker, key, self.clock + 1)?;
        self.clock += 1;
        Ok(Look::Hit { place, key, chunks })
    }

    /// One more owner of a chunk of the pinned entry.
    pub fn read(&self, pin: Pin, i: usize) -> Result<Shared<C>, NoMemory>
        requires stands { 0 < pins_on pin.worker.0 pin.key.0 self.now.lines }
        requires within { i < length (chunks_at pin.key.0 self.now.lines) }
        ensures chunk { IfOk result (λ chunk. slice_get (chunks_at pin.key.0 self.now.lines) i ≡ Some chunk) }
    {
        chunk_of(&self.slots, pin.key, i)
    }

    pub fn unpin(&mut self, pin: Pin)
        requires stands { 0 < pins_on pin.worker.0 pin.key.0 self.old.lines }
        ensures after { self.new ≡ after_unpin self.old pin.worker.0 pin.key.0 }
    {
        unpin_slot(&mut self.slots, pin);
    }

    /// Room for an entry of this size and so many chunks. All memory that filling it takes is had before an entry leaves.
    pub fn reserve(
        &mut self,
        alloc: Global,
        worker: WorkerNo,
        key: Key,
        size: u64,
        chunks: usize,
    ) -> Result<Reserve, NoMemory>
        ensures reply { IfOk result (λ reserve. reserve ≡ reserve_reply self.old key.0 size) }
        ensures after { OnOk result
            (self.new ≡ after_reserve self.old worker.0 key.0 size chunks (reserve_reply self.old key.0 size)) }
        ensures err { OnErr result (self.new ≡ self.old) }
    {
        if is_committed(&self.slots, key) || is_staged(&self.stages, key) {
            return Ok(Reserve::Already);
        }
        if size > self.limit {
            return Ok(Reserve::TooLarge);
        }
        let held = held_size(&self.stages);
        let Some(keys) = leaving(alloc, &self.slots, held, size, self.limit)? else {
            return Ok(Reserve::Full);
        };
        let stage = Stage::new(alloc, Ticket { worker, key }, size, chunks)?;
        add_stage(&mut self.slots, &mut self.stages, stage)?;
        remove_keys(&mut self.slots, keys.as_slice());
        self.counted = total_size(&self.slots) + held + size;
        let evicted = keys.as_slice().len();
        Ok(Reserve::Room { evicted })
    }

    pub fn put(&mut self, ticket: Ticket, chunk: Shared<C>)
        requires can_put { CanPut C.weight_of self.old ticket.worker.0 ticket.key.0 chunk }
        ensures after { self.new ≡ after_put self.old ticket.worker.0 ticket.key.0 chunk }
    {
        put_chunk(&mut self.stages, ticket, chunk);
    }

    /// Makes an entry of what is staged, which is whole.
    pub fn commit(&mut self, ticket: Ticket)
        requires can_commit { CanCommit C.weight_of self.old ticket.worker.0 ticket.key.0 }
        requires clock { self.old.clock + 1 < 2 ^ 64 }
        ensures after { self.new ≡ after_commit self.old ticket.worker.0 ticket.key.0 }
    {
        let stage = take_stage(&mut self.stages, ticket);
        self.clock += 1;
        self.slots.push_reserved(stage.into_slot(self.clock));
    }

    /// Gives up what is staged, and the room for it.
    pub fn drop_ticket(&mut self, ticket: Ticket)
        requires stands { HasDraft self.old ticket.worker.0 ticket.key.0 }
        ensures after { self.new ≡ after_drop self.old ticket.worker.0 ticket.key.0 }
    {
        let stage = take_stage(&mut self.stages, ticket);
        self.counted -= stage.size();
    }

    /// The entries, first the one that was used first.
    pub fn into_entries(self, alloc: Global) -> Result<Vec<Stored<C>>, NoMemory>
        ensures entries { IfOk result (λ entries. entries.items ≡ map stored_of self.lines) }
        ensures can_open { IfOk result
            (λ entries. (limit : ℕ) → limit ≤ 2 ^ 62 → CanOpen C.weight_of limit entries.items) }
    {
        let Cache {
            limit: _,
            clock: _,
            counted: _,
            slots,
            stages: _,
        } = self;
        stored_of(alloc, slots)
    }
}
