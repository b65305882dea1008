ghost use Rattle.std.specs.Prelude.{IfOk, OnOk};
ghost use Rattle.osb_base.specs.Shelves.{AreFiles};

use crate::cases::Case;
use crate::entries::{Entry, first_word};
use crate::mistakes::{CaseFault, Mistake};
use crate::parts::part_bytes;
use crate::runs::{Turn, failing};
use osb_base::{Bytes, Digest, MemFetcher, find_item};
use std::alloc::Global;

/// The mirrors of a case, in the order of their lines.
pub fn mirrors(alloc: Global, case: &Case, turn: Turn) -> Result<Vec<MemFetcher>, CaseFault> {
    let mut mirrors = Vec::new(alloc);
    for entry in case.template.iter().chain(case.own.iter()) {
        if entry.word.as_str() == "mirror" {
            mirrors.push(mirror(alloc, case, turn, entry)?)?;
        }
    }
    Ok(mirrors)
}

/// Whether this is the name of a mirror of the case.
pub fn is_mirror(case: &Case, name: &str) -> bool {
    case.find("mirror", name).is_some()
}

fn mirror(alloc: Global, case: &Case, turn: Turn, entry: &Entry) -> Result<MemFetcher, CaseFault> {
    let name = entry.name.as_str();
    if matches!(name, "" | "shelf" | "keeper" | "exporter" | "sink") {
        return Err(Mistake::NoMirrorName.at(entry.line));
    }
    if !entry.value.is_empty() {
        return Err(Mistake::NotAnItem.at(entry.line));
    }
    let is_gone = entry.block.iter().any(|line| line.as_str() == "gone");
    let items = items(alloc, entry)?;
    let failing = failing(alloc, case, turn, name)?;
    Ok(MemFetcher::new(is_gone, items, failing))
}

/// The items of a mirror, whose digests differ.
fn items(alloc: Global, entry: &Entry) -> Result<Vec<(Digest, Bytes)>, CaseFault>
    ensures { IfOk result (λ items. AreFiles items.items) }
{
    let mut items = Vec::new(alloc);
    for (place, text) in entry.block.iter().enumerate() {
        if text.as_str() != "gone" {
            add_item(alloc, text.as_str(), entry.block_line(place), &mut items)?;
        }
    }
    Ok(items)
}

fn add_item(
    alloc: Global,
    text: &str,
    line: usize,
    items: &mut Vec<(Digest, Bytes)>,
) -> Result<(), CaseFault>
    requires { AreFiles items.old.items }
    ensures { OnOk result (AreFiles items.new.items) }
{
    let (digest, bytes) = item(alloc, text, line)?;
    if find_item(items, &digest).is_some() {
        return Err(Mistake::GivenTwice.at(line));
    }
    items.push((digest, bytes))?;
    Ok(())
}

/// What a line of a mirror's block holds under a digest.
fn item(alloc: Global, text: &str, line: usize) -> Result<(Digest, Bytes), CaseFault> {
    let Some(rest) = text.strip_prefix("item ") else {
        return Err(Mistake::NotAnItem.at(line));
    };
    let (digest, part) = first_word(rest);
    let Ok(digest) = Digest::read(digest) else {
        return Err(Mistake::NotADigest.at(line));
    };
    Ok((digest, Bytes::new(part_bytes(alloc, part, line)?)))
}
