ghost use Rattle.std.specs.Prelude.{◌≡◌, ◌≢◌, Err, Some, IfOk, option_map};
ghost use Rattle.serde_json.specs.Data.{Data};
ghost use Rattle.serde_json.specs.View.{view};
ghost use Rattle.osb_manifest.specs.Manifests.{json_of, manifest_of, IsWellFormed};
ghost use Rattle.osb_manifest.specs.Right.{IsKept};

use crate::making::make_manifest;
use crate::walks::first_refusal;
use crate::{Manifest, Refusal};
use osb_base::NoMemory;
use osb_shape::places::top_place;
use serde_json::Value;
use std::alloc::{AllocError, Global};

/// How many bytes a manifest may have.
const MOST_BYTES: usize = 16_777_216;

/// The manifest that bytes spell as JSON, or the refusal of the least number, at its first place in the walk. Of
/// repeated members the last one counts.
pub fn read_manifest(alloc: Global, bytes: &[u8]) -> Result<Manifest, Refusal>
    ensures manifest { result ≢ Err Refusal.NoMemory → result ≡ manifest_of bytes.now }
    ensures well_formed { IfOk result IsWellFormed }

    // Each pipeline is there, with its build pipeline and each of its stages, and so is each item.
    ensures kept { IfOk result (λ manifest. (whole : Data) → json_of bytes.now ≡ Some whole → IsKept whole manifest) }
{
    if bytes.len() > MOST_BYTES {
        return Err(Refusal::TooLong(top_place(alloc)));
    }
    let Some(value) = read_json(alloc, bytes)? else {
        return Err(Refusal::NotJson(top_place(alloc)));
    };
    if let Some(refusal) = first_refusal(alloc, &value)? {
        return Err(refusal);
    }
    Ok(make_manifest(alloc, &value)?)
}

/// The value that bytes spell as JSON, where they do.
fn read_json(alloc: Global, bytes: &[u8]) -> Result<Option<Value>, NoMemory>
    ensures { IfOk result (λ value. option_map view value ≡ json_of bytes.now) }
{
    match Value::from_slice(alloc, bytes) {
        Ok(value) => Ok(Some(value)),
        Err(error) => {
            if error.is_memory() {
                return Err(AllocError);
            }
            Ok(None)
        }
    }
}
