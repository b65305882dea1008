ghost use Rattle.std.specs.Prelude.{◌≡◌, ◌↔◌, ℕ, ◌<◌, ◌≤◌, min, List, [], length, Option, Some, None, option_map, IfOk, IsErr, IsTrue, vec_len, vec_capacity};
ghost use Rattle.osb_base.specs.Faults.{Rose, HasCause};
ghost use Rattle.osb_base.specs.Calls.{no_calls, is_to_fail};
ghost use Rattle.osb_base.specs.Sinks.{SinkState, after_write, space, calls_after};

use crate::failing::FailingCalls;
use crate::{Failed, NoMemory};
use std::alloc::Global;
use std::marker::Model;

/// Where lines are written.
pub trait Sink {
    /// The bytes that were taken, where it tells.
    ghost taken: { Self → Option (List ℕ) };

    ghost sink_faults: { Self → ℕ };

    /// Takes a front of the piece, and says how long it is.
    fn write(&mut self, piece: &[u8]) -> Result<usize, Failed>
        ensures within { IfOk result (λ count. count ≤ length piece.now) }
        ensures taken { taken self.new ≡ option_map (after_write result piece.now) (taken self.old) }
        ensures cause { HasCause (record {}) (sink_faults self.old) (sink_faults self.new) result }
        ensures stuck { IfOk result (λ count. count ≡ 0 → 0 < length piece.now → Rose (sink_faults self.old) (sink_faults self.new)) };
}

/// A sink in memory of a fixed size, some of whose calls fail.
#[derive(Drop)]
pub struct MemSink {
    taken: Vec<u8>,
    room: usize,
    most: Option<usize>,
    calls: FailingCalls,
}

impl Model for MemSink {
    ghost Value = { SinkState };

    ghost view = { λ s. record { bytes = s.taken.items; room = s.room; most = s.most; calls = s.calls } };

    ghost invariant = { λ s. (vec_len s.taken ≤ s.room) × (s.room ≤ vec_capacity s.taken) };
}

impl MemSink {
    /// A sink that takes `room` bytes in all and `most` bytes of a piece, of whose calls, counted from 1, those in
    /// `fail` fail.
    pub fn new(
        alloc: Global,
        room: usize,
        most: Option<usize>,
        fail: Vec<u64>,
    ) -> Result<Self, NoMemory>
        ensures state { IfOk result (λ sink. sink ≡ record { bytes = []; room = room; most = most; calls = no_calls fail.items }) }
    {
        Ok(MemSink {
            taken: Vec::with_capacity(alloc, room)?,
            room,
            most,
            calls: FailingCalls::new(fail),
        })
    }

    pub fn taken(&self) -> &[u8]
        ensures bytes { result.now ≡ self.now.bytes }
    {
        &self.taken
    }

    /// How many bytes of a piece it takes next.
    fn space(&self) -> usize
        ensures { result ≡ space self.now }
    {
        let left = self.room - self.taken.len();
        match self.most {
            Some(most) => most.min(left),
            None => left,
        }
    }
}

impl Sink for MemSink {
    ghost taken = { λ s. Some s.bytes };

    ghost sink_faults = { λ s. s.calls.faults };

    fn write(&mut self, piece: &[u8]) -> Result<usize, Failed>
        ensures within { IfOk result (λ count. count ≤ length piece.now) }
        ensures taken { self.new.bytes ≡ after_write result piece.now self.old.bytes }
        ensures cause { HasCause (record {}) self.old.calls.faults self.new.calls.faults result }
        ensures stuck { IfOk result (λ count. count ≡ 0 → 0 < length piece.now → Rose self.old.calls.faults self.new.calls.faults) }
        ensures fails { IsErr result ↔ IsTrue (is_to_fail self.old.calls) }
        ensures count { IfOk result (λ count. count ≡ min (length piece.now) (space self.old)) }
        ensures calls { self.new.calls ≡ calls_after self.old }
        ensures room { self.new.room ≡ self.old.room }
        ensures most { self.new.most ≡ self.old.most }
    {
        if self.calls.fails_next() {
            self.calls.count_fault();
            return Err(Failed);
        }
        let space = self.space();
        if space == 0 {
            self.calls.count_fault();
        } else {
            self.calls.count_call();
        }
        let count = space.min(piece.len());
        match self.taken.extend_from_slice(&piece[..count]) {
            Ok(()) => Ok(count),
            Err(_) => unreachable!(),
        }
    }
}

/// A sink that takes each piece whole, keeps nothing and tells nothing.
#[derive(Clone, Copy, Debug, Default)]
pub struct SureSink;

impl SureSink {
    pub fn new() -> Self
        ensures silent { ⟦<SureSink as Sink>⟧.taken result ≡ None }
    {
        SureSink
    }
}

impl Sink for SureSink {
    ghost taken = { λ _. None };

    ghost sink_faults = { λ _. 0 };

    fn write(&mut self, piece: &[u8]) -> Result<usize, Failed> {
        Ok(piece.len())
    }
}
