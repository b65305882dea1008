ghost use Rattle.std.specs.Prelude.{◌≡◌, ℕ, List, Option, Some, None, Err, IfOk, IfSome};
ghost use Rattle.osb_base.specs.Faults.{HasCause};
ghost use Rattle.osb_base.specs.Calls.{no_calls, IsCall};
ghost use Rattle.osb_base.specs.Keepers.{KeeperState, IsSaved, after_save};

use crate::failing::FailingCalls;
use crate::{Bytes, NoMemory, ReadStop, WriteStop};
use std::alloc::Global;
use std::marker::Model;

/// Where the store is kept between two runs, as bytes.
pub trait Keeper {
    /// The bytes that it holds, or none, where it tells.
    ghost held: { Self → Option (Option (List ℕ)) };

    ghost keeper_faults: { Self → ℕ };

    /// The bytes that it holds, and `None` where it holds none.
    fn load(&mut self, alloc: Global) -> Result<Option<Bytes>, ReadStop>
        ensures kept { held self.new ≡ held self.old }
        ensures loaded { IfSome (held self.old) (λ bytes. IfOk result (λ loaded. loaded ≡ bytes)) }
        ensures cause { HasCause ReadStop.Failed (keeper_faults self.old) (keeper_faults self.new) result }
        ensures unmade { result ≡ Err ReadStop.NoMemory → keeper_faults self.new ≡ keeper_faults self.old };

    /// Holds these bytes in the place of what it held.
    fn save(&mut self, alloc: Global, bytes: &[u8]) -> Result<(), WriteStop>
        ensures saved { IsSaved (held self.old) (held self.new) bytes.now result }
        ensures cause { HasCause WriteStop.Failed (keeper_faults self.old) (keeper_faults self.new) result }
        ensures unmade { result ≡ Err WriteStop.NoMemory → keeper_faults self.new ≡ keeper_faults self.old };
}

/// A keeper in memory, some of whose calls fail.
#[derive(Drop)]
pub struct MemKeeper {
    bytes: Option<Bytes>,
    calls: FailingCalls,
}

impl Model for MemKeeper {
    ghost Value = { KeeperState };

    ghost view = { λ k. record { bytes = k.bytes; calls = k.calls } };
}

impl MemKeeper {
    /// A keeper that holds these bytes or none, of whose calls, counted from 1, those in `fail` fail.
    pub fn new(bytes: Option<Bytes>, fail: Vec<u64>) -> Self
        ensures state { result ≡ record { bytes = bytes; calls = no_calls fail.items } }
    {
        MemKeeper {
            bytes,
            calls: FailingCalls::new(fail),
        }
    }

    /// What it holds.
    pub fn held(&self) -> Option<&[u8]>
        ensures some { IfSome result (λ bytes. self.now.bytes ≡ Some bytes.now) }
        ensures none { result ≡ None → self.now.bytes ≡ None }
    {
        match &self.bytes {
            Some(bytes) => Some(bytes.as_slice()),
            None => None,
        }
    }
}

impl Keeper for MemKeeper {
    ghost held = { λ k. Some k.bytes };

    ghost keeper_faults = { λ k. k.calls.faults };

    fn load(&mut self, alloc: Global) -> Result<Option<Bytes>, ReadStop>
        ensures bytes { self.new.bytes ≡ self.old.bytes }
        ensures loaded { IfOk result (λ loaded. loaded ≡ self.old.bytes) }
        ensures cause { HasCause ReadStop.Failed self.old.calls.faults self.new.calls.faults result }
        ensures calls { IsCall ReadStop.Failed ReadStop.NoMemory self.old.calls self.new.calls result }
    {
        if self.calls.fails_next() {
            self.calls.count_fault();
            return Err(ReadStop::Failed);
        }
        let loaded = copy_of(alloc, &self.bytes)?;
        self.calls.count_call();
        Ok(loaded)
    }

    fn save(&mut self, alloc: Global, bytes: &[u8]) -> Result<(), WriteStop>
        ensures bytes { self.new.bytes ≡ after_save result bytes.now self.old.bytes }
        ensures saved { IsSaved (Some self.old.bytes) (Some self.new.bytes) bytes.now result }
        ensures cause { HasCause WriteStop.Failed self.old.calls.faults self.new.calls.faults result }
        ensures calls { IsCall WriteStop.Failed WriteStop.NoMemory self.old.calls self.new.calls result }
    {
        if self.calls.fails_next() {
            self.calls.count_fault();
            return Err(WriteStop::Failed);
        }
        let copy = Bytes::new(Vec::from_slice(alloc, bytes)?);
        self.bytes = Some(copy);
        self.calls.count_call();
        Ok(())
    }
}

/// A keeper in memory that never fails.
#[derive(Drop)]
pub struct SureKeeper {
    bytes: Option<Bytes>,
}

impl Model for SureKeeper {
    ghost Value = { Option (List ℕ) };

    ghost view = { λ k. k.bytes };
}

impl SureKeeper {
    pub fn new(bytes: Option<Bytes>) -> Self
        ensures bytes { result ≡ bytes }
    {
        SureKeeper { bytes }
    }
}

impl Keeper for SureKeeper {
    ghost held = { λ k. Some k };

    ghost keeper_faults = { λ _. 0 };

    fn load(&mut self, alloc: Global) -> Result<Option<Bytes>, ReadStop> {
        Ok(copy_of(alloc, &self.bytes)?)
    }

    fn save(&mut self, alloc: Global, bytes: &[u8]) -> Result<(), WriteStop> {
        self.bytes = Some(Bytes::new(Vec::from_slice(alloc, bytes)?));
        Ok(())
    }
}

fn copy_of(alloc: Global, bytes: &Option<Bytes>) -> Result<Option<Bytes>, NoMemory>
    ensures copy { IfOk result (λ copy. copy ≡ bytes.now) }
{
    match bytes {
        Some(bytes) => Ok(Some(Bytes::new(Vec::from_slice(alloc, bytes.as_slice())?))),
        None => Ok(None),
    }
}
