//! What is staged in a cache, by worker and key.
ghost use Rattle.std.specs.Prelude.{◌≡◌, ◌^◌, ◌<◌, true, Some, length, find, position, IfOk, IsSomeAnd, IsTrue, ◌↔◌, All};
ghost use Rattle.std.specs.List.{list_any};
ghost use Rattle.osb_cache.specs.Edits.{remove_first, update_first, IsFirst};
ghost use Rattle.osb_cache.specs.Caches.{is_draft, drafts_key, held, new_draft, with_chunk, line_of_draft, HasRoom, IsWhole, IsFitting};

use crate::Ticket;
use crate::slots::{Slot, weight_of};
use osb_base::{Key, NoMemory, Weighed};
use osb_tree::Shared;
use std::alloc::Global;
use std::marker::Model;

/// What is staged for a ticket. There is room for all its chunks; `pins` is for the entry that it becomes.
#[derive(Drop)]
pub(crate) struct Stage<C> {
    ticket: Ticket,
    size: u64,
    count: usize,
    chunks: Vec<Shared<C>>,
    pins: Vec<u32>,
}

impl<C> Model for Stage<C> {
    ghost use Rattle.std.specs.Prelude.{◌≡◌, ◌≤◌, vec_len, vec_capacity};
    ghost use Rattle.osb_cache.specs.Caches.{Draft as DraftData};

    ghost Value = { DraftData C };

    ghost view = { λ s. record { worker = s.ticket.worker.0; key = s.ticket.key.0; size = s.size; count = s.count; chunks = s.chunks.items } };

    ghost invariant = { λ s. (s.count ≤ vec_capacity s.chunks) × (vec_len s.pins ≡ 0) };
}

impl<C: Drop> Stage<C> {
    pub(crate) fn new(
        alloc: Global,
        ticket: Ticket,
        size: u64,
        count: usize,
    ) -> Result<Self, NoMemory>
        ensures { IfOk result (λ stage. stage ≡ new_draft ticket.worker.0 ticket.key.0 size count) }
    {
        Ok(Stage {
            ticket,
            size,
            count,
            chunks: Vec::with_capacity(alloc, count)?,
            pins: Vec::new(alloc),
        })
    }

    fn has_ticket(&self, ticket: Ticket) -> bool
        ensures { result ≡ is_draft ticket.worker.0 ticket.key.0 self.now }
    {
        self.ticket.worker.0 == ticket.worker.0 && self.ticket.key.0 == ticket.key.0
    }

    fn has_key(&self, key: Key) -> bool
        ensures { result ≡ drafts_key key.0 self.now }
    {
        self.ticket.key.0 == key.0
    }

    pub(crate) fn size(&self) -> u64
        ensures { result ≡ self.now.size }
    {
        self.size
    }

    fn put(&mut self, chunk: Shared<C>)
        requires { length self.old.chunks < self.old.count }
        ensures { self.new ≡ with_chunk chunk self.old }
    {
        self.chunks.push_reserved(chunk);
    }

    pub(crate) fn into_slot(self, clock: u64) -> Slot<C>
        ensures { result ≡ line_of_draft clock self }
    {
        let Stage {
            ticket,
            size,
            count: _,
            chunks,
            pins,
        } = self;
        Slot::new(ticket.key, chunks, size, clock, pins)
    }
}

impl<C: Weighed + Drop> Stage<C> {
    fn has_room(&self, chunk: &C) -> bool
        requires { IsFitting C.weight_of self.now }
        ensures { IsTrue result ↔ HasRoom C.weight_of chunk.now self.now }
    {
        let room = self.size - weight_of(&self.chunks);
        self.chunks.len() < self.count && chunk.weight() <= room
    }

    fn is_whole(&self) -> bool
        requires { IsFitting C.weight_of self.now }
        ensures { IsTrue result ↔ IsWhole C.weight_of self.now }
    {
        let room = self.size - weight_of(&self.chunks);
        self.chunks.len() == self.count && room == 0
    }
}

fn found_place<C: Drop>(stages: &[Stage<C>], ticket: Ticket) -> Option<usize>
    ensures { result ≡ position (is_draft ticket.worker.0 ticket.key.0) stages.now }
{
    stages.iter().position(|stage| stage.has_ticket(ticket))
}

/// The place of what is staged for a ticket that stands.
fn stage_place<C: Drop>(stages: &[Stage<C>], ticket: Ticket) -> usize
    requires { list_any (is_draft ticket.worker.0 ticket.key.0) stages.now ≡ true }
    ensures { IsFirst (is_draft ticket.worker.0 ticket.key.0) stages.now result }
{
    match found_place(stages, ticket) {
        Some(place) => place,
        None => unreachable!(),
    }
}

pub(crate) fn has_stage<C: Drop>(stages: &[Stage<C>], ticket: Ticket) -> bool
    ensures { result ≡ list_any (is_draft ticket.worker.0 ticket.key.0) stages.now }
{
    stages.iter().any(|stage| stage.has_ticket(ticket))
}

/// Whether what is staged for the ticket has room for the chunk.
pub(crate) fn has_room<C: Weighed + Drop>(stages: &[Stage<C>], ticket: Ticket, chunk: &C) -> bool
    requires { All (IsFitting C.weight_of) stages.now }
    ensures { IsTrue result
        ↔ IsSomeAnd (find (is_draft ticket.worker.0 ticket.key.0) stages.now) (HasRoom C.weight_of chunk.now) }
{
    match found_place(stages, ticket) {
        Some(place) => stages[place].has_room(chunk),
        None => false,
    }
}

/// Whether what is staged for the ticket is whole.
pub(crate) fn is_whole<C: Weighed + Drop>(stages: &[Stage<C>], ticket: Ticket) -> bool
    requires { All (IsFitting C.weight_of) stages.now }
    ensures { IsTrue result
        ↔ IsSomeAnd (find (is_draft ticket.worker.0 ticket.key.0) stages.now) (IsWhole C.weight_of) }
{
    match found_place(stages, ticket) {
        Some(place) => stages[place].is_whole(),
        None => false,
    }
}

pub(crate) fn is_staged<C: Drop>(stages: &[Stage<C>], key: Key) -> bool
    ensures { result ≡ list_any (drafts_key key.0) stages.now }
{
    stages.iter().any(|stage| stage.has_key(key))
}

pub(crate) fn held_size<C: Drop>(stages: &[Stage<C>]) -> u64
    requires { held stages.now < 2 ^ 64 }
    ensures { result ≡ held stages.now }
{
    stages.iter().map(|stage| stage.size()).sum()
}

pub(crate) fn put_chunk<C: Drop>(stages: &mut Vec<Stage<C>>, ticket: Ticket, chunk: Shared<C>)
    requires { IsSomeAnd (find (is_draft ticket.worker.0 ticket.key.0) stages.old.items) (λ draft. length draft.chunks < draft.count) }
    ensures { stages.new.items ≡ update_first (is_draft ticket.worker.0 ticket.key.0) (with_chunk chunk) stages.old.items }
{
    let place = stage_place(stages, ticket);
    let stage = &mut stages[place];
    stage.put(chunk);
}

/// Takes out what is staged for the ticket.
pub(crate) fn take_stage<C: Drop>(stages: &mut Vec<Stage<C>>, ticket: Ticket) -> Stage<C>
    requires { list_any (is_draft ticket.worker.0 ticket.key.0) stages.old.items ≡ true }
    ensures taken { find (is_draft ticket.worker.0 ticket.key.0) stages.old.items ≡ Some result }
    ensures items { stages.new.items ≡ remove_first (is_draft ticket.worker.0 ticket.key.0) stages.old.items }
{
    let place = stage_place(stages, ticket);
    stages.remove(place)
}
