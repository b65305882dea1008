//! The store as a file of the system.
ghost use Rattle.std.specs.Prelude.{◌≡◌, ◌++◌, codes, string_bytes, None, IfOk};

use crate::readings::load_opened;
use crate::stops::{count_read, count_write, write_stop};
use crate::writings::write_whole;
use osb_base::{Bytes, Keeper, NoMemory, ReadStop, WriteStop};
use std::alloc::Global;
use std::fs;
use std::fs::OpenFile;
use std::rt::Files;

/// A keeper that holds the bytes of the file of a name, and none where no file has it. What is saved is written to a
/// second file, `NAME.new`, which then takes the name, so that the file is whole at each moment.
#[derive(Drop)]
pub struct FileKeeper<'a, R: Files> {
    files: R,
    name: &'a str,
    faults: u64,
}

impl<'a, R: Files> FileKeeper<'a, R> {
    pub fn new(files: R, name: &'a str) -> Self
        ensures sound { ⟦<FileKeeper<'a, R> as Keeper>⟧.keeper_faults result ≡ 0 }
    {
        FileKeeper {
            files,
            name,
            faults: 0,
        }
    }

    pub fn faults(&self) -> u64
        ensures faults { result ≡ ⟦<FileKeeper<'a, R> as Keeper>⟧.keeper_faults self.now }
    {
        self.faults
    }
}

impl<R: Files> Keeper for FileKeeper<'_, R> {
    ghost held = { λ _. None };

    ghost keeper_faults = { λ k. k.faults };

    fn load(&mut self, alloc: Global) -> Result<Option<Bytes>, ReadStop> {
        let loaded = load_opened(alloc, fs::open(&self.files, self.name));
        count_read(&mut self.faults, loaded)
    }

    fn save(&mut self, alloc: Global, bytes: &[u8]) -> Result<(), WriteStop> {
        let second = second_name(alloc, self.name)?;
        let saved = replace(&self.files, second.as_str(), self.name, bytes);
        count_write(&mut self.faults, saved)
    }
}

fn second_name(alloc: Global, name: &str) -> Result<String, NoMemory>
    ensures { IfOk result (λ second. string_bytes second ≡ name.now ++ codes ".new") }
{
    format!(in alloc; "{name}.new")
}

/// Writes the second file, and gives it the name. It is removed where that fails.
fn replace(files: &impl Files, second: &str, name: &str, bytes: &[u8]) -> Result<(), WriteStop> {
    let replaced = match write_synced(files, second, bytes) {
        Ok(()) => renamed(files, second, name),
        Err(stop) => Err(stop),
    };
    if replaced.is_err() {
        // What is left of it does no harm where it can't be removed: the next save begins it anew.
        let _ = fs::remove_file(files, second);
    }
    replaced
}

/// Writes a file, down to the disk.
fn write_synced(files: &impl Files, place: &str, bytes: &[u8]) -> Result<(), WriteStop> {
    match fs::create(files, place) {
        Ok(mut file) => {
            write_whole(&mut file, bytes)?;
            file.sync_all().map_err(|error| write_stop(&error))
        }
        Err(error) => Err(write_stop(&error)),
    }
}

fn renamed(files: &impl Files, from: &str, to: &str) -> Result<(), WriteStop> {
    match fs::rename(files, from, to) {
        Ok(()) => Ok(()),
        Err(error) => Err(write_stop(&error)),
    }
}
