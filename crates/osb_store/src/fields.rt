//! The smallest pieces of a store's bytes.
ghost use Rattle.osb_store.specs.Reading.{byte_at, bytes_at, number_at, small_number_at, field_at, text_at};
ghost use Rattle.osb_store.specs.Steps.{Gives};

use crate::steps::Stop;
use byteorder::{BigEndian, ByteOrder};

pub(crate) fn byte_of(bytes: &[u8]) -> Result<(u8, &[u8]), Stop>
    ensures { Gives (λ x. (x.0, x.1.now)) result (byte_at bytes.now) }
{
    match bytes.split_first() {
        Some((byte, rest)) => Ok((*byte, rest)),
        None => Err(Stop::Broken),
    }
}

pub(crate) fn bytes_of(count: u64, bytes: &[u8]) -> Result<(&[u8], &[u8]), Stop>
    ensures { Gives (λ x. (x.0.now, x.1.now)) result (bytes_at count bytes.now) }
{
    if (bytes.len() as u64) < count {
        return Err(Stop::Broken);
    }
    Ok(bytes.split_at(count as usize))
}

#[tactic(auto, unfolding(crate::specs::Reading::number_at))]
pub(crate) fn number_of(bytes: &[u8]) -> Result<(u64, &[u8]), Stop>
    ensures { Gives (λ x. (x.0, x.1.now)) result (number_at bytes.now) }
{
    if bytes.len() < 8 {
        return Err(Stop::Broken);
    }
    Ok((BigEndian::read_u64(bytes), &bytes[8..]))
}

#[tactic(auto, unfolding(crate::specs::Reading::small_number_at))]
pub(crate) fn small_number_of(bytes: &[u8]) -> Result<(u32, &[u8]), Stop>
    ensures { Gives (λ x. (x.0, x.1.now)) result (small_number_at bytes.now) }
{
    if bytes.len() < 4 {
        return Err(Stop::Broken);
    }
    Ok((BigEndian::read_u32(bytes), &bytes[4..]))
}

#[tactic(auto, unfolding(crate::specs::Reading::field_at))]
pub(crate) fn field_of(bytes: &[u8]) -> Result<(&[u8], &[u8]), Stop>
    ensures { Gives (λ x. (x.0.now, x.1.now)) result (field_at bytes.now) }
{
    let (count, rest) = number_of(bytes)?;
    bytes_of(count, rest)
}

/// A field that is UTF-8.
pub(crate) fn text_of(bytes: &[u8]) -> Result<(&str, &[u8]), Stop>
    ensures { Gives (λ x. (x.0.now, x.1.now)) result (text_at bytes.now) }
{
    let (field, rest) = field_of(bytes)?;
    match std::str::from_utf8(field) {
        Ok(text) => Ok((text, rest)),
        Err(_) => Err(Stop::Broken),
    }
}
