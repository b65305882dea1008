//! Items as files of a folder.
ghost use Rattle.std.specs.Prelude.{◌≡◌, ◌≢◌, None, Some, Ok, IfOk, IfSome, IsErrAnd, IsTrue};
ghost use Rattle.std.specs.IoError.{error_kind};
ghost use Rattle.osb_base.specs.Shelves.{cut};
ghost use Rattle.osb_base.specs.Fetchers.{IsShort};

use crate::places::place_of;
use crate::readings::read_opened;
use crate::stops::count_read;
use osb_base::{Digest, Fetched, Fetcher, ReadStop, Text};
use std::alloc::Global;
use std::io::{ErrorKind, Read};
use std::rt::Files;
use std::{fs, io};

/// A folder that has each item in the file `sha256:HEX`. It is gone where there is no such folder when this is made.
#[derive(Drop)]
pub struct FolderMirror<R: Files + Drop> {
    files: R,
    folder: Text,
    is_gone: bool,
    faults: u64,
}

impl<R: Files + Drop> FolderMirror<R> {
    pub fn new(files: R, folder: Text) -> Self
        ensures sound { (⟦<FolderMirror<R> as Fetcher>⟧.fetcher_state result).faults ≡ 0 }
    {
        let found = fs::metadata(&files, folder.as_str());
        FolderMirror::of_found(files, folder, &found)
    }

    /// The mirror of a folder where this was found under its name.
    pub fn of_found(files: R, folder: Text, found: &io::Result<fs::Metadata>) -> Self
        ensures sound { (⟦<FolderMirror<R> as Fetcher>⟧.fetcher_state result).faults ≡ 0 }
        ensures gone { IsTrue (⟦<FolderMirror<R> as Fetcher>⟧.fetcher_state result).is_gone → IsErrAnd found.now (λ e. error_kind e ≡ ErrorKind.NotFound) }
        ensures absent { IsErrAnd found.now (λ e. error_kind e ≡ ErrorKind.NotFound) → IsTrue (⟦<FolderMirror<R> as Fetcher>⟧.fetcher_state result).is_gone }
    {
        let is_gone = match found {
            Ok(_) => false,
            Err(error) => error.kind() == ErrorKind::NotFound,
        };
        FolderMirror {
            files,
            folder,
            is_gone,
            faults: 0,
        }
    }

    pub fn faults(&self) -> u64
        ensures faults { result ≡ (⟦<FolderMirror<R> as Fetcher>⟧.fetcher_state self.now).faults }
    {
        self.faults
    }
}

impl<R: Files + Drop> Fetcher for FolderMirror<R> {
    ghost fetcher_state = { λ m. record { is_gone = m.is_gone; told = None; faults = m.faults } };

    fn fetch(&mut self, alloc: Global, digest: &Digest) -> Result<Fetched, ReadStop> {
        if self.is_gone {
            return Ok(Fetched::Gone);
        }
        let name = digest.text(alloc)?;
        let place = place_of(alloc, self.folder.as_str(), name.as_str())?;
        let fetched = item_of(alloc, fs::open(&self.files, place.as_str()));
        count_read(&mut self.faults, fetched)
    }
}

/// What is given of an item where this came of opening its file.
pub fn item_of<F: Read + Drop>(alloc: Global, opened: io::Result<F>) -> Result<Fetched, ReadStop>
    ensures absent { IsErrAnd opened (λ e. error_kind e ≡ ErrorKind.NotFound) → result ≡ Ok Fetched.Absent }
    ensures present { result ≡ Ok Fetched.Absent → IsErrAnd opened (λ e. error_kind e ≡ ErrorKind.NotFound) }
    ensures given { IfOk opened (λ file. IfOk result (λ fetched. IfSome (F.remaining file) (λ bytes. fetched ≡ Fetched.Bytes (cut bytes)))) }
    ensures short { IfOk result IsShort }
    ensures held { result ≢ Ok Fetched.Gone }
{
    match read_opened(alloc, opened)? {
        Some(bytes) => Ok(Fetched::Bytes(bytes)),
        None => Ok(Fetched::Absent),
    }
}
