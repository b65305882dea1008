ghost use Rattle.std.specs.Prelude.{◌≡◌, ℕ, ◌==◌, ⊤, List, length, IfOk};
ghost use Rattle.std.specs.Ordering.{nat_cmp, as_partial_cmp};
ghost use Rattle.std.specs.Cmp.{partial_order_from_own_ties};
ghost use Rattle.std.specs.Cmp.Lexicographic.{pointwise, slice_cmp, nat_list_cmp_total};
ghost use Rattle.std.specs.Cmp.Rules.{comparing};
ghost use Rattle.std.proofs.Common.{rules};
ghost use Rattle.hex.specs.Hex.{encode_lower};
ghost use Rattle.osb_base.specs.Digests.{digest_text, digest_read};

use hex::FromHex;
use osb_tree::{NoMemory, Text};
use std::alloc::Global;
use std::cmp::Ordering;
use std::marker::Model;
use thiserror::Error;

/// A SHA-256 digest (FIPS 180-4), which contracts see as its 32 bytes.
#[derive(Debug, Drop)]
pub struct Digest {
    bytes: [u8; 32],
}

impl Model for Digest {
    ghost Value = { List ℕ };

    ghost view = { λ d. d.bytes };
}

/// Why a text is no digest.
#[derive(Debug, Drop, Error)]
pub enum DigestFault {
    /// 1
    #[error("the text is not `sha256:` with 64 hex digits in lower case")]
    BadForm,
    #[error("want of memory")]
    NoMemory,
}

impl Digest {
    pub fn of(bytes: [u8; 32]) -> Self
        ensures bytes { result ≡ bytes }
    {
        Digest { bytes }
    }

    pub fn as_slice(&self) -> &[u8]
        ensures bytes { result.now ≡ self.now }
        ensures length { length self.now ≡ 32 }
    {
        &self.bytes
    }

    /// Needs no memory.
    pub fn read(text: &str) -> Result<Self, DigestFault>
        ensures digest { result ≡ digest_read text.now }
    {
        let Some(digits) = text.as_bytes().strip_prefix(b"sha256:") else {
            return Err(DigestFault::BadForm);
        };
        let Ok(bytes) = <[u8; 32]>::from_hex(digits) else {
            return Err(DigestFault::BadForm);
        };
        let digest = Digest { bytes };
        if digest.has_digits(digits) {
            Ok(digest)
        } else {
            Err(DigestFault::BadForm)
        }
    }

    pub fn text(&self, alloc: Global) -> Result<Text, NoMemory>
        ensures text { IfOk result (λ text. text ≡ digest_text self.now) }
    {
        let mut text = String::from_str(alloc, "sha256:")?;
        text.push_str(self.hex(alloc)?.as_str())?;
        Ok(Text::from(text))
    }

    /// Its 64 digits alone.
    pub fn hex(&self, alloc: Global) -> Result<Text, NoMemory>
        ensures digits { IfOk result (λ text. text ≡ encode_lower self.now) }
    {
        Ok(Text::from(hex::encode(alloc, &self.bytes)?))
    }

    /// Whether these are its 64 digits. Needs no memory.
    pub fn has_digits(&self, digits: &[u8]) -> bool
        ensures digits { result ≡ pointwise ◌==◌ digits.now (encode_lower self.now) }
    {
        let mut own = [0u8; 64];
        let _ = hex::encode_to_slice(&self.bytes, &mut own);
        digits == own.as_slice()
    }
}

impl Clone for Digest {
    ghost is_clone = { λ x y. y ≡ x };

    ghost is_infallible = { λ _. ⊤ };

    fn clone(&self) -> Result<Self, NoMemory> {
        Ok(Digest { bytes: self.bytes })
    }
}

impl PartialEq for Digest {
    ghost eq = { pointwise ◌==◌ };

    ghost laws = { Prim.search (comparing, rules) };

    fn eq(&self, other: &Self) -> bool {
        self.bytes == other.bytes
    }
}

impl Eq for Digest {
    ghost laws = { Prim.search (comparing, rules) };
}

impl PartialOrd for Digest {
    ghost partial_cmp = { as_partial_cmp (slice_cmp nat_cmp) };

    ghost laws = { partial_order_from_own_ties (Prim.search (comparing, rules)) (Prim.search (comparing, rules)) };

    fn partial_cmp(&self, other: &Self) -> Option<Ordering> {
        Some(self.cmp(other))
    }
}

impl Ord for Digest {
    ghost cmp = { slice_cmp nat_cmp };

    ghost total = { nat_list_cmp_total };

    ghost matches_partial_cmp = { Prim.search (comparing, rules) };

    ghost matches_eq = { Prim.search (comparing, rules) };

    fn cmp(&self, other: &Self) -> Ordering {
        self.bytes.cmp(&other.bytes)
    }
}
