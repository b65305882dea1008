ghost use Rattle.std.specs.Prelude.{◌≡◌, ◌≢◌, Some, Ok, Err, IfOk, IsTrue, IsFalse};
ghost use Rattle.osb_base.specs.Calls.{no_calls, IsCall};
ghost use Rattle.osb_base.specs.Shelves.{AreFiles};
ghost use Rattle.osb_base.specs.Fetchers.{FetcherState, MemFetcherState, SureFetcherState, IsFetch, IsGiven, IsShort, seen_of_mem, seen_of_sure};

use crate::failing::FailingCalls;
use crate::shelves::front_of;
use crate::{Bytes, Digest, NoMemory, ReadStop, find_item};
use std::alloc::Global;
use std::marker::Model;

/// What a fetcher gives of an item.
#[derive(Debug, Drop)]
pub enum Fetched {
    Bytes(Bytes),
    /// It doesn't hold the item.
    Absent,
    /// The fetcher is gone for good.
    Gone,
}

/// Where items are had by their SHA-256 digests. One that is gone answers `Gone`, now and later.
pub trait Fetcher: Drop {
    ghost fetcher_state: { Self → FetcherState };

    /// Bytes past the first 16,777,217 are left out.
    fn fetch(&mut self, alloc: Global, digest: &Digest) -> Result<Fetched, ReadStop>
        ensures fetch { IsFetch digest.now (fetcher_state self.old) (fetcher_state self.new) result };
}

impl Fetcher for Box<dyn Fetcher> {
    ghost fetcher_state = { λ b. (Fetcher-box b).fetcher_state b.value };

    fn fetch(&mut self, alloc: Global, digest: &Digest) -> Result<Fetched, ReadStop> {
        (**self).fetch(alloc, digest)
    }
}

/// A fetcher in memory, some of whose calls fail.
#[derive(Drop)]
pub struct MemFetcher {
    gone: bool,
    items: Vec<(Digest, Bytes)>,
    calls: FailingCalls,
}

impl Model for MemFetcher {
    ghost Value = { MemFetcherState };

    ghost view = { λ f. record { is_gone = f.gone; held = f.items.items; calls = f.calls } };
}

impl MemFetcher {
    /// A fetcher with these items, of whose calls, counted from 1, those in `fail` fail. One that is gone fails none.
    pub fn new(gone: bool, items: Vec<(Digest, Bytes)>, fail: Vec<u64>) -> Self
        requires { AreFiles items.items }
        ensures state { result ≡ record { is_gone = gone; held = items.items; calls = no_calls fail.items } }
    {
        MemFetcher {
            gone,
            items,
            calls: FailingCalls::new(fail),
        }
    }
}

impl Fetcher for MemFetcher {
    ghost fetcher_state = { seen_of_mem };

    fn fetch(&mut self, alloc: Global, digest: &Digest) -> Result<Fetched, ReadStop>
        ensures fetch { IsFetch digest.now (seen_of_mem self.old) (seen_of_mem self.new) result }
        ensures kept { self.new.held ≡ self.old.held }
        ensures calls { IsFalse self.old.is_gone → IsCall ReadStop.Failed ReadStop.NoMemory self.old.calls self.new.calls result }
        ensures gone_calls { IsTrue self.old.is_gone → self.new.calls ≡ self.old.calls }
    {
        if self.gone {
            return Ok(Fetched::Gone);
        }
        if self.calls.fails_next() {
            self.calls.count_fault();
            return Err(ReadStop::Failed);
        }
        let fetched = item_of(alloc, &self.items, digest)?;
        self.calls.count_call();
        Ok(fetched)
    }
}

/// A fetcher in memory that never fails.
#[derive(Drop)]
pub struct SureFetcher {
    gone: bool,
    items: Vec<(Digest, Bytes)>,
}

impl Model for SureFetcher {
    ghost Value = { SureFetcherState };

    ghost view = { λ f. record { is_gone = f.gone; held = f.items.items } };
}

impl SureFetcher {
    pub fn new(gone: bool, items: Vec<(Digest, Bytes)>) -> Self
        requires { AreFiles items.items }
        ensures state { result ≡ record { is_gone = gone; held = items.items } }
    {
        SureFetcher { gone, items }
    }
}

impl Fetcher for SureFetcher {
    ghost fetcher_state = { seen_of_sure };

    fn fetch(&mut self, alloc: Global, digest: &Digest) -> Result<Fetched, ReadStop> {
        if !self.gone {
            return Ok(item_of(alloc, &self.items, digest)?);
        }
        Ok(Fetched::Gone)
    }
}

/// What a fetcher with these items, one that isn't gone, gives under a digest.
fn item_of(alloc: Global, items: &[(Digest, Bytes)], digest: &Digest) -> Result<Fetched, NoMemory>
    ensures given { IfOk result (λ fetched. IsGiven items.now digest.now fetched) }
    ensures short { IfOk result IsShort }
    ensures there { result ≢ Ok Fetched.Gone }
{
    match find_item(items, digest) {
        Some(bytes) => Ok(Fetched::Bytes(front_of(alloc, bytes.as_slice())?)),
        None => Ok(Fetched::Absent),
    }
}
