ghost use Rattle.std.specs.Prelude.{◌≡◌, ◌≢◌, false, Ok, Err, None, map, option_map, string_bytes};
ghost use Rattle.osb_base.specs.Faults.{Rose};
ghost use Rattle.osb_top.specs.Inspects.{inspected, read_due, inspect_due, IsInspect};
ghost use Rattle.osb_top.specs.Inspecting.{IsInspection, WritesInspected};

use crate::Status;
use crate::stops::refuse_words;
use crate::writes::{write_bytes, write_text};
use osb_answers::unbuilt_line;
use osb_base::{Bytes, ReadStop, Shelf, Sink};
use osb_ident::{inspect_text, stage_ids};
use osb_manifest::{Manifest, Refusal, read_manifest};
use osb_ready::Unbuilt;
use std::alloc::Global;

/// Writes the identifiers of a manifest's stages, as two words ask: `inspect`, and the manifest's name.
pub fn inspect<H: Shelf, O: Sink>(
    alloc: Global,
    words: &[String],
    shelf: &mut H,
    out: &mut O,
) -> Status
    ensures inspect { IsInspect (inspected (map string_bytes words.now))
        (record { files = H.files shelf.old; faults = record { before = H.shelf_faults shelf.old; now = H.shelf_faults shelf.new } })
        (record { before = O.taken out.old; now = O.taken out.new; faults = record { before = O.sink_faults out.old; now = O.sink_faults out.new } })
        result.0 }

    // What two statuses tell by themselves.
    ensures words_refused { result.0 ≡ 2 → inspected (map string_bytes words.now) ≡ None }
    ensures sink_failed { result.0 ≡ 6 → Rose (O.sink_faults out.old) (O.sink_faults out.new) }
{
    match inspected(words) {
        Some(name) => {
            let text = inspect_named(alloc, name, shelf);
            write_inspected(alloc, text, out)
        }
        None => refuse_words(out),
    }
}

/// The manifest's name that words have, where they are a request.
fn inspected(words: &[String]) -> Option<&str>
    ensures { option_map (λ name. name.now) result ≡ inspected (map string_bytes words.now) }
{
    match words {
        [word, name] if word.as_str() == "inspect" => Some(name.as_str()),
        _ => None,
    }
}

/// The text that is due of the manifest of a name.
fn inspect_named<H: Shelf>(alloc: Global, name: &str, shelf: &mut H) -> Result<Bytes, Unbuilt>
    ensures { IsInspection
        (record { files = H.files shelf.old; faults = record { before = H.shelf_faults shelf.old; now = H.shelf_faults shelf.new } })
        name.now result }
{
    match shelf.read(alloc, name) {
        Ok(found) => inspect_due(alloc, found),
        Err(ReadStop::Failed) => Err(Unbuilt::ReadFault),
        Err(ReadStop::NoMemory) => Err(Unbuilt::NoMemory),
    }
}

/// The identifiers that are due where these bytes stand under the manifest's name, as a text.
pub fn inspect_due(alloc: Global, found: Option<Bytes>) -> Result<Bytes, Unbuilt>
    ensures due { result ≢ Err Unbuilt.NoMemory → result ≡ inspect_due found }
{
    let Some(bytes) = found else {
        return Err(Unbuilt::Absent);
    };
    match read_manifest(alloc, bytes.as_slice()) {
        Ok(manifest) => identifiers(alloc, &manifest),
        Err(Refusal::NoMemory) => Err(Unbuilt::NoMemory),
        Err(refusal) => Err(Unbuilt::Refused(refusal)),
    }
}

fn identifiers(alloc: Global, manifest: &Manifest) -> Result<Bytes, Unbuilt>
    ensures { result ≢ Err Unbuilt.NoMemory → result ≡ read_due (Ok manifest.now) }
{
    let ids = stage_ids(alloc, manifest)?;
    Ok(inspect_text(alloc, manifest, &ids)?)
}

/// Writes what a manifest was answered, and gives the status.
fn write_inspected<O: Sink>(alloc: Global, text: Result<Bytes, Unbuilt>, out: &mut O) -> Status
    ensures { WritesInspected (record { before = O.taken out.old; now = O.taken out.new; faults = record { before = O.sink_faults out.old; now = O.sink_faults out.new } })
        text result.0 }
{
    match text {
        Ok(text) => write_bytes(text.as_slice(), 0, out),
        Err(unbuilt) => write_unbuilt(alloc, unbuilt, out),
    }
}

/// Writes why there is no text; for want of memory, nothing.
fn write_unbuilt<O: Sink>(alloc: Global, unbuilt: Unbuilt, out: &mut O) -> Status
    ensures { WritesInspected (record { before = O.taken out.old; now = O.taken out.new; faults = record { before = O.sink_faults out.old; now = O.sink_faults out.new } })
        (Err unbuilt) result.0 }
{
    if is_no_memory(&unbuilt) {
        return Status(7);
    }
    match unbuilt_line(alloc, 1, &unbuilt) {
        Ok(line) => write_text(line.as_str(), 1, out),
        Err(_) => Status(7),
    }
}

fn is_no_memory(unbuilt: &Unbuilt) -> bool
    ensures { result ≡ false → unbuilt.now ≢ Unbuilt.NoMemory }
{
    matches!(unbuilt, Unbuilt::NoMemory)
}
