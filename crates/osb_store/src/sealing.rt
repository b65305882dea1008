//! The bytes around the body of a store.
ghost use Rattle.std.specs.Prelude.{◌≡◌, ◌≤◌, length};
ghost use Rattle.std.specs.Result.{result_map_both};
ghost use Rattle.sha2.specs.Sha256.{sha256};
ghost use Rattle.osb_store.specs.Places.{same_text};
ghost use Rattle.osb_store.specs.Sealing.{begins_well, told_number, body_in};

use crate::StoreRefusal;
use byteorder::{BigEndian, ByteOrder};
use sha2::{Digest, Sha256};

fn begins_well(bytes: &[u8]) -> bool
    ensures { result ≡ begins_well bytes.now }
{
    let count = bytes.len().min(8);
    let magic = b"OSBCACH1";
    &bytes[..count] == &magic[..count]
}

#[tactic(auto, unfolding(crate::specs::Sealing::told_number))]
fn told_number(bytes: &[u8]) -> u64
    requires { 16 ≤ length bytes.now }
    ensures { result ≡ told_number bytes.now }
{
    BigEndian::read_u64(&bytes[8..])
}

fn is_signed(bytes: &[u8], digest: &[u8]) -> bool
    ensures { result ≡ same_text (sha256 bytes.now) digest.now }
{
    let own: [u8; 32] = Sha256::digest(bytes);
    &own[..] == digest
}

/// The body, or the first cause why there is none.
#[tactic(auto, unfolding(crate::specs::Sealing::body_in))]
pub(crate) fn body_in(bytes: &[u8]) -> Result<&[u8], StoreRefusal>
    ensures { result_map_both (λ body. body.now) (λ refusal. refusal) result ≡ body_in bytes.now }
{
    if !begins_well(bytes) {
        return Err(StoreRefusal::Magic);
    }
    if bytes.len() < 48 {
        return Err(StoreRefusal::Truncated);
    }
    let told = told_number(bytes);
    let room = (bytes.len() - 48) as u64;
    if room < told {
        return Err(StoreRefusal::Truncated);
    }
    if told < room {
        return Err(StoreRefusal::TrailingBytes);
    }
    let (signed, digest) = bytes.split_at(bytes.len() - 32);
    if !is_signed(signed, digest) {
        return Err(StoreRefusal::Digest);
    }
    Ok(&signed[16..])
}
