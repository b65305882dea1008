use crate::cases::Case;
use crate::entries::Entry;
use crate::mistakes::{CaseFault, Mistake};
use crate::parts::bytes_of;
use crate::runs::words;
use osb_base::{NoMemory, Text};
use osb_ident::{Checkpoint, marks, stage_ids};
use osb_manifest::{Manifest, Refusal, read_manifest};
use std::alloc::{AllocError, Global};
use std::fmt::Write;

/// A line for each pipeline of a case's manifest: its place, and for each stage 1 where its tree is kept, and else 0.
pub fn marks_answer(alloc: Global, case: &Case) -> Result<Text, CaseFault> {
    let manifest = manifest(alloc, case, case.needed("value")?)?;
    let ids = stage_ids(alloc, &manifest)?;
    let checkpoints = checkpoints(alloc, case)?;
    let kept = marks(alloc, &manifest, &ids, &checkpoints)?;
    let mut lines = String::new(alloc);
    for (place, own) in kept.as_slice().iter().enumerate() {
        write!(lines, "{place}")?;
        add_marks(&mut lines, own.as_slice())?;
    }
    Ok(Text::new(alloc, lines.as_str())?)
}

fn manifest(alloc: Global, case: &Case, entry: &Entry) -> Result<Manifest, CaseFault> {
    match read_manifest(alloc, &bytes_of(alloc, case, entry)?) {
        Ok(manifest) => Ok(manifest),
        Err(Refusal::NoMemory) => Err(CaseFault::NoMemory(AllocError)),
        Err(_) => Err(Mistake::NoManifest.at(entry.line)),
    }
}

/// The words, of which `*` names every pipeline.
pub fn checkpoints(alloc: Global, case: &Case) -> Result<Vec<Checkpoint>, NoMemory> {
    let mut checkpoints = Vec::new(alloc);
    for word in words(alloc, case)? {
        let checkpoint = match word.as_str() {
            "*" => Checkpoint::All,
            word => Checkpoint::Word(Text::new(alloc, word)?),
        };
        checkpoints.push(checkpoint)?;
    }
    Ok(checkpoints)
}

fn add_marks(lines: &mut String, marks: &[bool]) -> Result<(), NoMemory> {
    for is_kept in marks {
        lines.push_str(if *is_kept { " 1" } else { " 0" })?;
    }
    lines.push('\n')
}
