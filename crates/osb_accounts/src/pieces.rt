//! Parts of a text, and texts as bytes.
ghost use Rattle.std.specs.Prelude.{◌≡◌, ◌++◌, ◌==◌, map, IfOk, decimal};
ghost use Rattle.std.specs.List.{slice_split};

use osb_tree::{Bytes, NoMemory};
use std::alloc::Global;
use std::fmt::Write;

/// What stands between the places of a byte.
pub(crate) fn pieces(alloc: Global, text: &[u8], byte: u8) -> Result<Vec<&[u8]>, NoMemory>
    ensures { IfOk result (λ pieces. map (λ piece. piece.now) pieces.items ≡ slice_split (λ b. b == byte) text.now) }
{
    text.split(|b| *b == byte).collect(alloc)
}

pub(crate) fn copied(alloc: Global, text: &[u8]) -> Result<Bytes, NoMemory>
    ensures { IfOk result (λ copy. copy ≡ text.now) }
{
    Ok(Bytes::new(text.to_vec(alloc)?))
}

pub(crate) fn decimal(alloc: Global, number: u32) -> Result<Bytes, NoMemory>
    ensures { IfOk result (λ text. text ≡ decimal number) }
{
    let text = format!(in alloc; "{number}")?;
    Ok(Bytes::new(text.into_bytes()))
}
