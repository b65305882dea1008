//! Manifests as files of the system.
ghost use Rattle.std.specs.Prelude.{◌≡◌, None};
ghost use Rattle.osb_base.specs.Faults.{HasCause};

use crate::readings::read_opened;
use crate::stops::count_read;
use osb_base::{Bytes, ReadStop, Shelf};
use std::alloc::Global;
use std::fs;
use std::rt::Files;

/// A shelf whose names are paths of files.
#[derive(Drop)]
pub struct FileShelf<R: Files> {
    files: R,
    faults: u64,
}

impl<R: Files> FileShelf<R> {
    pub fn new(files: R) -> Self
        ensures sound { ⟦<FileShelf<R> as Shelf>⟧.shelf_faults result ≡ 0 }
    {
        FileShelf { files, faults: 0 }
    }

    pub fn faults(&self) -> u64
        ensures faults { result ≡ ⟦<FileShelf<R> as Shelf>⟧.shelf_faults self.now }
    {
        self.faults
    }
}

impl<R: Files> Shelf for FileShelf<R> {
    ghost files = { λ _. None };

    ghost shelf_faults = { λ s. s.faults };

    fn read(&mut self, alloc: Global, name: &str) -> Result<Option<Bytes>, ReadStop> {
        if name.is_empty() {
            return Ok(None);
        }
        let found = read_opened(alloc, fs::open(&self.files, name));
        count_read(&mut self.faults, found)
    }
}
