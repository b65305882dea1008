use crate::cases::Case;
use crate::entries::{Entry, first_word};
use crate::mistakes::{CaseFault, Mistake};
use osb_base::NoMemory;
use std::alloc::Global;

/// The bytes that a line and its block give.
pub fn bytes_of(alloc: Global, case: &Case, entry: &Entry) -> Result<Vec<u8>, CaseFault> {
    if !has_parts(entry)? {
        return Ok(plain_bytes(alloc, entry)?);
    }
    let mut bytes = Vec::new(alloc);
    for (place, part) in entry.block.iter().enumerate() {
        let line = entry.block_line(place);
        match part.strip_prefix("insert ") {
            Some(name) => {
                let inserted = inserted_bytes(alloc, case, name, line)?;
                bytes.extend_from_slice(&inserted)?;
            }
            None => add_part(alloc, part.as_str(), line, &mut bytes)?,
        }
    }
    Ok(bytes)
}

/// The text that a line and its block give.
pub fn text_of(alloc: Global, case: &Case, entry: &Entry) -> Result<String, CaseFault> {
    match String::from_utf8(bytes_of(alloc, case, entry)?) {
        Ok(text) => Ok(text),
        Err(_) => Err(Mistake::NotUtf8.at(entry.line)),
    }
}

/// Whether the lines of the block are parts.
fn has_parts(entry: &Entry) -> Result<bool, CaseFault> {
    let has_parts = entry.value.as_str() == "parts";
    if has_parts && entry.block.is_empty() {
        return Err(Mistake::NoParts.at(entry.line));
    }
    Ok(has_parts)
}

/// The rest of the line, and each line of the block with a line feed.
fn plain_bytes(alloc: Global, entry: &Entry) -> Result<Vec<u8>, NoMemory> {
    let mut bytes = Vec::from_slice(alloc, entry.value.as_bytes())?;
    for text in &entry.block {
        bytes.extend_from_slice(text.as_bytes())?;
        bytes.push(b'\n')?;
    }
    Ok(bytes)
}

/// What the case's `part` of this name gives. A part inserts no part, so that each text has an end.
fn inserted_bytes(
    alloc: Global,
    case: &Case,
    name: &str,
    line: usize,
) -> Result<Vec<u8>, CaseFault> {
    let Some(entry) = case.find("part", name) else {
        return Err(Mistake::PartNotGiven.at(line));
    };
    if !has_parts(entry)? {
        return Ok(plain_bytes(alloc, entry)?);
    }
    let mut bytes = Vec::new(alloc);
    for (place, part) in entry.block.iter().enumerate() {
        add_part(alloc, part.as_str(), entry.block_line(place), &mut bytes)?;
    }
    Ok(bytes)
}

/// The bytes that one part gives.
pub fn part_bytes(alloc: Global, part: &str, line: usize) -> Result<Vec<u8>, CaseFault> {
    let mut bytes = Vec::new(alloc);
    add_part(alloc, part, line, &mut bytes)?;
    Ok(bytes)
}

/// Adds what one line of a block of parts gives.
fn add_part(alloc: Global, part: &str, line: usize, bytes: &mut Vec<u8>) -> Result<(), CaseFault> {
    let (word, rest) = first_word(part);
    match word {
        "text" => bytes.extend_from_slice(rest.as_bytes())?,
        "line" => add_line(rest, bytes)?,
        "hex" => add_hex(alloc, rest, line, bytes)?,
        _ => add_many(alloc, word, rest, line, bytes)?,
    }
    Ok(())
}

fn add_line(text: &str, bytes: &mut Vec<u8>) -> Result<(), NoMemory> {
    bytes.extend_from_slice(text.as_bytes())?;
    bytes.push(b'\n')?;
    Ok(())
}

fn add_hex(alloc: Global, text: &str, line: usize, bytes: &mut Vec<u8>) -> Result<(), CaseFault> {
    match hex::decode(alloc, text) {
        Ok(decoded) => bytes.extend_from_slice(&decoded)?,
        Err(_) => return Err(Mistake::NotHex.at(line)),
    }
    Ok(())
}

/// Adds what a part gives that has a number.
fn add_many(
    alloc: Global,
    word: &str,
    rest: &str,
    line: usize,
    bytes: &mut Vec<u8>,
) -> Result<(), CaseFault> {
    if !matches!(word, "spaces" | "repeat" | "count" | "lines") {
        return Err(Mistake::UnknownPart.at(line));
    }
    let (number, text) = match word {
        "spaces" => (rest, " "),
        _ => first_word(rest),
    };
    let Ok(number) = number.parse::<usize>() else {
        return Err(Mistake::NoNumber.at(line));
    };
    match word {
        "spaces" | "repeat" => add_repeated(number, text.as_bytes(), bytes)?,
        "count" => add_counted(alloc, number, text, "", bytes)?,
        _ => add_counted(alloc, number, text, "\n", bytes)?,
    }
    Ok(())
}

fn add_repeated(number: usize, piece: &[u8], bytes: &mut Vec<u8>) -> Result<(), NoMemory> {
    for _ in 0..number {
        bytes.extend_from_slice(piece)?;
    }
    Ok(())
}

/// Adds a text and an end for each number from 0, which stands in the place of each `#`.
fn add_counted(
    alloc: Global,
    number: usize,
    text: &str,
    end: &str,
    bytes: &mut Vec<u8>,
) -> Result<(), NoMemory> {
    for place in 0..number {
        let digits = format!(in alloc; "{place}")?;
        add_replaced(text, digits.as_bytes(), bytes)?;
        bytes.extend_from_slice(end.as_bytes())?;
    }
    Ok(())
}

fn add_replaced(text: &str, digits: &[u8], bytes: &mut Vec<u8>) -> Result<(), NoMemory> {
    let mut is_first = true;
    for piece in text.split('#') {
        if !is_first {
            bytes.extend_from_slice(digits)?;
        }
        is_first = false;
        bytes.extend_from_slice(piece.as_bytes())?;
    }
    Ok(())
}
