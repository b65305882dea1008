ghost use Rattle.std.specs.Prelude.{◌≡◌, ◌<◌, [], IfOk, string_bytes, length};
ghost use Rattle.osb_pyread.specs.Steps.{Gives};
ghost use Rattle.osb_pyread.specs.Quotes.{hex_digit_at, unit_at, is_high, char_of, units_at, named, char_at, text_at, quoted_at};

use crate::faults::Stop;
use crate::words::behind;
use std::alloc::Global;

fn read_hex_digit(bytes: &[u8]) -> Result<(u32, &[u8]), Stop>
    ensures gives { Gives (λ x. (x.0, x.1.now)) result (hex_digit_at bytes.now) }
    ensures small { IfOk result (λ x. x.0 < 16) }
{
    let [first, rest @ ..] = bytes else {
        return Err(Stop::Broken);
    };
    match char::from(*first).to_digit(16) {
        Some(digit) => Ok((digit, rest)),
        None => Err(Stop::Broken),
    }
}

#[tactic(auto, unfolding(crate::specs::Quotes::unit_at))]
fn read_unit(bytes: &[u8]) -> Result<(u32, &[u8]), Stop>
    ensures gives { Gives (λ x. (x.0, x.1.now)) result (unit_at bytes.now) }
    ensures small { IfOk result (λ x. x.0 < 65536) }
{
    let (a, rest) = read_hex_digit(bytes)?;
    let (b, rest) = read_hex_digit(rest)?;
    let (c, rest) = read_hex_digit(rest)?;
    let (d, rest) = read_hex_digit(rest)?;
    Ok((((a * 16 + b) * 16 + c) * 16 + d, rest))
}

fn is_high(unit: u32) -> bool
    ensures { result ≡ is_high unit }
{
    0xd800 <= unit && unit < 0xdc00
}

fn char_of(code: u32) -> Result<char, Stop>
    ensures { Gives (λ c. c) result (char_of code) }
{
    match char::from_u32(code) {
        Some(c) => Ok(c),
        None => Err(Stop::Broken),
    }
}

#[tactic(auto, unfolding(crate::specs::Quotes::units_at))]
fn read_units(bytes: &[u8]) -> Result<(char, &[u8]), Stop>
    ensures { Gives (λ x. (x.0, x.1.now)) result (units_at bytes.now) }
{
    let (first, rest) = read_unit(bytes)?;
    if is_high(first) {
        let rest = behind(b"\\u", rest).ok_or(Stop::Broken)?;
        let (second, rest) = read_unit(rest)?;
        let c = char_of(0x10000 + first % 1024 * 1024 + second % 1024)?;
        return Ok((c, rest));
    }
    Ok((char_of(first)?, rest))
}

fn named(letter: u8) -> char
    ensures { result ≡ named letter }
{
    match letter {
        b'n' => '\n',
        b'r' => '\r',
        b't' => '\t',
        b'b' => '\u{8}',
        b'f' => '\u{c}',
        _ => char::from(letter),
    }
}

#[tactic(auto, unfolding(crate::specs::Quotes::char_at))]
fn read_char(bytes: &[u8]) -> Result<(char, &[u8]), Stop>
    ensures { Gives (λ x. (x.0, x.1.now)) result (char_at bytes.now) }
{
    match bytes {
        [b'\\', b'u', rest @ ..] => read_units(rest),
        [b'\\', letter, rest @ ..] => Ok((named(*letter), rest)),
        [b'\\'] | [] => Err(Stop::Broken),
        [byte, rest @ ..] => Ok((char::from(*byte), rest)),
    }
}

fn read_text(alloc: Global, bytes: &[u8]) -> Result<(String, &[u8]), Stop>
    ensures { Gives (λ x. (string_bytes x.0, x.1.now)) result
        (text_at (length bytes.now) [] bytes.now) }
{
    let mut text = String::new(alloc);
    let mut rest = bytes;
    for _ in 0..bytes.len() {
        if let Some(after) = behind(b"\"", rest) {
            return Ok((text, after));
        }
        let (c, after) = read_char(rest)?;
        text.push(c)?;
        rest = after;
    }
    Err(Stop::Broken)
}

#[tactic(auto, unfolding(crate::specs::Quotes::quoted_at))]
pub fn read_quoted(alloc: Global, bytes: &[u8]) -> Result<(String, &[u8]), Stop>
    ensures { Gives (λ x. (string_bytes x.0, x.1.now)) result (quoted_at bytes.now) }
{
    read_text(alloc, behind(b"\"", bytes).ok_or(Stop::Broken)?)
}
