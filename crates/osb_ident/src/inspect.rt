ghost use Rattle.std.specs.Prelude.{◌≡◌, ◌++◌, IfOk, OnOk, string_bytes};
ghost use Rattle.osb_ident.specs.Marks.{stage_line, pipeline_lines, inspect_text};

use crate::Ids;
use osb_base::{Bytes, Digest, NoMemory};
use osb_manifest::Manifest;
use std::alloc::Global;
use std::fmt::Write;

#[tactic(auto, unfolding(crate::specs::Marks::stage_line))]
fn write_stage(
    alloc: Global,
    out: &mut String,
    name: &str,
    place: usize,
    id: &Digest,
) -> Result<(), NoMemory>
    ensures { OnOk result (string_bytes out.new ≡ string_bytes out.old ++ stage_line name.now place id.now) }
{
    let digits = id.hex(alloc)?;
    out.push_str(name)?;
    out.push_str(" ")?;
    write!(out, "{place}")?;
    out.push_str(" ")?;
    out.push_str(digits.as_str())?;
    out.push_str("\n")
}

fn write_pipeline(
    alloc: Global,
    out: &mut String,
    name: &str,
    ids: &[Digest],
) -> Result<(), NoMemory>
    ensures { OnOk result (string_bytes out.new ≡ string_bytes out.old ++ pipeline_lines name.now ids.now) }
{
    if ids.is_empty() {
        out.push_str(name)?;
        out.push_str(" - null\n")?;
        return Ok(());
    }
    for (place, id) in ids.iter().enumerate() {
        write_stage(alloc, out, name, place, id)?;
    }
    Ok(())
}

/// A line for each stage: the name of its pipeline, its place in it from 0, and its identifier, as far as both have
/// pipelines.
pub fn inspect_text(alloc: Global, manifest: &Manifest, ids: &Ids) -> Result<Bytes, NoMemory>
    ensures text { IfOk result (λ text. text ≡ inspect_text manifest.now ids.now.stages) }
{
    let stages = ids.stages.as_slice();
    let count = manifest.pipelines.len().min(stages.len());
    let mut out = String::new(alloc);
    for place in 0..count {
        let name = manifest.pipelines.name(place);
        write_pipeline(alloc, &mut out, name, stages[place].as_slice())?;
    }
    Ok(Bytes::new(out.into_bytes()))
}
