//! Trees exported as folders and files of the system.
ghost use Rattle.std.specs.Prelude.{◌≡◌, None};

use crate::places::place_of;
use crate::stops::{count_write, write_stop};
use crate::writings::write_file;
use osb_base::{Exporter, WriteStop};
use std::alloc::Global;
use std::fs;
use std::rt::Files;

/// An exporter into a root folder. It sets no modes and owners, and makes no links.
#[derive(Drop)]
pub struct FolderExporter<'a, R: Files> {
    files: R,
    root: &'a str,
    faults: u64,
}

impl<'a, R: Files> FolderExporter<'a, R> {
    pub fn new(files: R, root: &'a str) -> Self
        ensures sound { ⟦<FolderExporter<'a, R> as Exporter>⟧.export_faults result ≡ 0 }
    {
        FolderExporter {
            files,
            root,
            faults: 0,
        }
    }

    pub fn faults(&self) -> u64
        ensures faults { result ≡ ⟦<FolderExporter<'a, R> as Exporter>⟧.export_faults self.now }
    {
        self.faults
    }
}

impl<R: Files> Exporter for FolderExporter<'_, R> {
    ghost done = { λ _. None };

    ghost export_faults = { λ e. e.faults };

    fn dir(
        &mut self,
        alloc: Global,
        path: &str,
        _mode: u32,
        _uid: u32,
        _gid: u32,
    ) -> Result<(), WriteStop> {
        let place = place_of(alloc, self.root, path)?;
        let made = make_folder(&self.files, place.as_str());
        count_write(&mut self.faults, made)
    }

    fn file(
        &mut self,
        alloc: Global,
        path: &str,
        _mode: u32,
        _uid: u32,
        _gid: u32,
        bytes: &[u8],
    ) -> Result<(), WriteStop> {
        let place = place_of(alloc, self.root, path)?;
        let written = write_file(&self.files, place.as_str(), bytes);
        count_write(&mut self.faults, written)
    }

    fn link(
        &mut self,
        _alloc: Global,
        _path: &str,
        _uid: u32,
        _gid: u32,
        _target: &str,
    ) -> Result<(), WriteStop> {
        Ok(())
    }

    fn finish(&mut self, alloc: Global, folder: &str, list: &[u8]) -> Result<(), WriteStop> {
        let folder = place_of(alloc, self.root, folder)?;
        let place = place_of(alloc, folder.as_str(), "list")?;
        let written = write_file(&self.files, place.as_str(), list);
        count_write(&mut self.faults, written)
    }
}

fn make_folder(files: &impl Files, place: &str) -> Result<(), WriteStop> {
    match fs::create_dir_all(files, place) {
        Ok(()) => Ok(()),
        Err(error) => Err(write_stop(&error)),
    }
}
