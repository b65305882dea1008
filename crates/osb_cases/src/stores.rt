//! Stores read from bytes, and written again.
use crate::cases::Case;
use crate::entries::Entry;
use crate::mistakes::CaseFault;
use crate::parts::bytes_of;
use osb_base::NoMemory;
use osb_store::{Store, StoreRefusal, read_store, write_store};
use std::alloc::{AllocError, Global};
use std::fmt::Write;

/// The bytes of a case.
#[derive(Drop)]
pub struct Given {
    bytes: Vec<u8>,
}

pub fn bytes_given(alloc: Global, case: &Case) -> Result<Given, CaseFault> {
    let bytes = bytes_of(alloc, case, case.needed("bytes")?)?;
    Ok(Given { bytes })
}

impl Given {
    /// What came at a section, and `None` where bytes have no such section.
    pub fn section(&self, alloc: Global, due: &Entry) -> Result<Option<Vec<u8>>, NoMemory> {
        let text = match due.name.as_str() {
            "read" => came(alloc, &self.bytes)?,
            "fronts" => self.fronts(alloc)?.text(alloc)?,
            "bits" => self.changes(alloc)?.text(alloc)?,
            _ => return Ok(None),
        };
        Ok(Some(text.into_bytes()))
    }

    /// What comes of each front but the whole.
    fn fronts(&self, alloc: Global) -> Result<Tally, NoMemory> {
        let mut tally = Tally {
            counts: Vec::new(alloc),
        };
        for end in 0..self.bytes.len() {
            tally.add(came(alloc, &self.bytes[..end])?)?;
        }
        Ok(tally)
    }

    /// What comes of the bytes with each one of their bits changed.
    fn changes(&self, alloc: Global) -> Result<Tally, NoMemory> {
        let mut tally = Tally {
            counts: Vec::new(alloc),
        };
        let mut bytes = self.bytes.clone()?;
        for place in 0..bytes.len() {
            add_changes(alloc, &mut bytes, place, &mut tally)?;
        }
        Ok(tally)
    }
}

fn add_changes(
    alloc: Global,
    bytes: &mut Vec<u8>,
    place: usize,
    tally: &mut Tally,
) -> Result<(), NoMemory> {
    for bit in [1u8, 2, 4, 8, 16, 32, 64, 128] {
        let Some(byte) = bytes.get_mut(place) else {
            return Ok(());
        };
        let before = *byte;
        *byte = before ^ bit;
        let words = came(alloc, bytes)?;
        if let Some(byte) = bytes.get_mut(place) {
            *byte = before;
        }
        tally.add(words)?;
    }
    Ok(())
}

/// How often each came, in the order in which they came first.
#[derive(Drop)]
struct Tally {
    counts: Vec<(String, usize)>,
}

impl Tally {
    fn add(&mut self, words: String) -> Result<(), NoMemory> {
        match self.counts.iter_mut().find(|count| count.0 == words) {
            Some(count) => count.1 = count.1.saturating_add(1),
            None => self.counts.push((words, 1))?,
        }
        Ok(())
    }

    fn text(&self, alloc: Global) -> Result<String, NoMemory> {
        let mut text = String::new(alloc);
        for (words, count) in &self.counts {
            write!(text, "{count} {}\n", words.as_str())?;
        }
        Ok(text)
    }
}

/// The refusal with its number and place; else how much is in the store, if what is written of it is the same again.
fn came(alloc: Global, bytes: &[u8]) -> Result<String, NoMemory> {
    match read_store(alloc, bytes) {
        Ok(store) => store_words(alloc, &store, bytes),
        Err(StoreRefusal::Magic) => String::from_str(alloc, "1 Magic"),
        Err(StoreRefusal::Truncated) => String::from_str(alloc, "2 Truncated"),
        Err(StoreRefusal::TrailingBytes) => String::from_str(alloc, "3 TrailingBytes"),
        Err(StoreRefusal::Digest) => String::from_str(alloc, "4 Digest"),
        Err(StoreRefusal::Shape(place)) => format!(in alloc; "5 Shape {place}"),
        Err(StoreRefusal::NoMemory) => Err(AllocError),
    }
}

fn store_words(alloc: Global, store: &Store, bytes: &[u8]) -> Result<String, NoMemory> {
    if write_store(alloc, store)?.as_slice() != bytes {
        return String::from_str(alloc, "written otherwise");
    }
    let blobs = store.table.blobs().len();
    let recipes = store.table.recipes().len();
    let entries = store.entries.as_slice().len();
    format!(in alloc; "{blobs} blobs, {recipes} recipes, {entries} entries")
}
