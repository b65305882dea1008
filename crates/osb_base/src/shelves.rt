ghost use Rattle.std.specs.Prelude.{◌≡◌, ◌≤◌, ℕ, List, length, Option, Some, Err, IfOk, IfSome};
ghost use Rattle.osb_base.specs.Faults.{HasCause};
ghost use Rattle.osb_base.specs.Calls.{no_calls, IsCall};
ghost use Rattle.osb_base.specs.Shelves.{AreFiles, ShelfState, IsRead, IsCut, cut};

use crate::failing::FailingCalls;
use crate::{Bytes, NoMemory, ReadStop, Text, find_named};
use std::alloc::Global;
use std::marker::Model;

/// Where manifests are read, by name.
pub trait Shelf {
    /// What it holds, where it tells.
    ghost files: { Self → Option (List (List ℕ × List ℕ)) };

    ghost shelf_faults: { Self → ℕ };

    /// The bytes under a name, and `None` where the name is absent. Bytes past the first 16,777,217 are left out.
    fn read(&mut self, alloc: Global, name: &str) -> Result<Option<Bytes>, ReadStop>
        ensures kept { files self.new ≡ files self.old }
        ensures found { IfSome (files self.old) (λ held. IsRead held name.now result) }
        ensures short { IsCut result }
        ensures cause { HasCause ReadStop.Failed (shelf_faults self.old) (shelf_faults self.new) result }
        ensures unmade { result ≡ Err ReadStop.NoMemory → shelf_faults self.new ≡ shelf_faults self.old };
}

/// A shelf in memory, some of whose calls fail.
#[derive(Drop)]
pub struct MemShelf {
    files: Vec<(Text, Bytes)>,
    calls: FailingCalls,
}

impl Model for MemShelf {
    ghost Value = { ShelfState };

    ghost view = { λ s. record { held = s.files.items; calls = s.calls } };
}

impl MemShelf {
    /// A shelf with these files, of whose calls, counted from 1, those in `fail` fail.
    pub fn new(files: Vec<(Text, Bytes)>, fail: Vec<u64>) -> Self
        requires { AreFiles files.items }
        ensures state { result ≡ record { held = files.items; calls = no_calls fail.items } }
    {
        MemShelf {
            files,
            calls: FailingCalls::new(fail),
        }
    }
}

impl Shelf for MemShelf {
    ghost files = { λ s. Some s.held };

    ghost shelf_faults = { λ s. s.calls.faults };

    fn read(&mut self, alloc: Global, name: &str) -> Result<Option<Bytes>, ReadStop>
        ensures kept { self.new.held ≡ self.old.held }
        ensures found { IsRead self.old.held name.now result }
        ensures short { IsCut result }
        ensures cause { HasCause ReadStop.Failed self.old.calls.faults self.new.calls.faults result }
        ensures calls { IsCall ReadStop.Failed ReadStop.NoMemory self.old.calls self.new.calls result }
    {
        if self.calls.fails_next() {
            self.calls.count_fault();
            return Err(ReadStop::Failed);
        }
        let found = read_file(alloc, &self.files, name)?;
        self.calls.count_call();
        Ok(found)
    }
}

/// A shelf in memory that never fails.
#[derive(Drop)]
pub struct SureShelf {
    files: Vec<(Text, Bytes)>,
}

impl Model for SureShelf {
    ghost use Rattle.osb_base.specs.Shelves.{Files};

    ghost Value = { Files };

    ghost view = { λ s. s.files.items };
}

impl SureShelf {
    pub fn new(files: Vec<(Text, Bytes)>) -> Self
        requires { AreFiles files.items }
        ensures files { result ≡ files.items }
    {
        SureShelf { files }
    }
}

impl Shelf for SureShelf {
    ghost files = { λ s. Some s };

    ghost shelf_faults = { λ _. 0 };

    fn read(&mut self, alloc: Global, name: &str) -> Result<Option<Bytes>, ReadStop> {
        Ok(read_file(alloc, &self.files, name)?)
    }
}

/// How many bytes of a file a shelf gives at most: one more than a manifest may have.
pub const MOST_FILE_BYTES: usize = 16_777_217;

/// What a shelf with these files gives under a name.
fn read_file(alloc: Global, files: &[(Text, Bytes)], name: &str) -> Result<Option<Bytes>, NoMemory>
    ensures found { IsRead files.now name.now result }
    ensures short { IsCut result }
{
    match find_named(files, name) {
        Some(bytes) => Ok(Some(front_of(alloc, bytes.as_slice())?)),
        None => Ok(None),
    }
}

/// As much of these bytes as a shelf gives.
pub(crate) fn front_of(alloc: Global, bytes: &[u8]) -> Result<Bytes, NoMemory>
    ensures front { IfOk result (λ front. front ≡ cut bytes.now) }
    ensures short { IfOk result (λ front. length front ≤ 16777217) }
{
    let end = MOST_FILE_BYTES.min(bytes.len());
    let front = Vec::from_slice(alloc, &bytes[..end])?;
    Ok(Bytes::new(front))
}
