ghost use Rattle.std.specs.Prelude.{◌≡◌, ◌≢◌, Err};
ghost use Rattle.osb_sources.specs.Verdicts.{own_bytes, decoded, is_listed};
ghost use Rattle.osb_sources.specs.Replies.{decoded_own, own_verdict, with_verdicts};

use crate::replies::{Reply, judge};
use crate::{Items, SourceAnswer};
use base64::DecodeAllocError;
use base64::engine::general_purpose::STANDARD;
use osb_base::{Bytes, Digest, find_item};
use std::alloc::Global;

#[tactic(auto, unfolding(crate::specs::Verdicts::decoded))]
fn decode_own(alloc: Global, digest: &Digest, text: &str) -> Result<Bytes, SourceAnswer>
    ensures { result ≢ Err SourceAnswer.NoMemory → result ≡ decoded_own digest.now (decoded text.now) }
{
    match STANDARD.decode(alloc, text.as_bytes()) {
        Ok(bytes) => Ok(Bytes::new(bytes)),
        Err(DecodeAllocError::DecodeError(_)) => Err(SourceAnswer::BadBase64(digest.clone()?)),
        Err(DecodeAllocError::OutOfMemory) => Err(SourceAnswer::NoMemory),
    }
}

/// What the manifest itself holds of an item.
pub fn look_inline(alloc: Global, items: &Items, digest: &Digest) -> Result<Reply, SourceAnswer>
    ensures { result ≢ Err SourceAnswer.NoMemory → with_verdicts result ≡ own_verdict digest.now (own_bytes items.now digest.now) }
{
    let Some(text) = find_item(items.inline.as_slice(), digest) else {
        return Ok(Reply::Absent);
    };
    let bytes = decode_own(alloc, digest, text.as_str())?;
    match judge(digest, bytes) {
        Reply::TooLarge => Err(SourceAnswer::ItemTooLarge(digest.clone()?)),
        reply => Ok(reply),
    }
}

/// Whether the manifest lists the item as one to be had elsewhere.
pub fn lists_elsewhere(items: &Items, digest: &Digest) -> bool
    ensures { result ≡ is_listed items.now digest.now }
{
    for held in items.curl.as_slice() {
        if digest == held {
            return true;
        }
    }
    false
}
