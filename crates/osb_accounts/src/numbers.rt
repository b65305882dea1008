//! Numbers of accounts.
ghost use Rattle.std.specs.Prelude.{◌≡◌, ◌≢◌, ◌+◌, ◌<◌, ◌||◌, ℕ, Bool, List, length, false, Ok, Err, IfOk};
ghost use Rattle.std.specs.List.{slice_index_or};
ghost use Rattle.osb_accounts.specs.Lines.{has_number, is_taken, least_free};
ghost use Rattle.osb_accounts.specs.Groups.{free_number, new_number};

use crate::{Line, Lines};
use osb_stages::owners::Owner;
use osb_tree::accounts::account_number;
use osb_tree::{NoMemory, StageFault};
use std::alloc::Global;

/// The numbers among which a free one is looked for.
const FIRST: u32 = 1000;

const LAST: u32 = 60000;

/// The number that is asked for, where no line has it, or else the least free one.
pub(crate) fn new_number(
    alloc: Global,
    asked: &Option<Owner>,
    lines: &Lines,
) -> Result<Owner, StageFault>
    ensures { result ≢ Err StageFault.NoMemory → result ≡ new_number asked.now lines.now }
{
    match asked {
        Some(number) if is_taken(number.number(), lines.as_slice()) => {
            Err(StageFault::NumberTaken(u64::from(number.number())))
        }
        Some(number) => Ok(*number),
        None => free_number(alloc, lines),
    }
}

pub(crate) fn free_number(alloc: Global, lines: &Lines) -> Result<Owner, StageFault>
    ensures { result ≢ Err StageFault.NoMemory → result ≡ free_number lines.now }
{
    match least_free(alloc, lines.as_slice())? {
        Some(number) => Ok(number),
        None => Err(StageFault::NumberTaken(u64::from(LAST))),
    }
}

pub(crate) fn is_taken(number: u32, lines: &[Line]) -> bool
    ensures { result ≡ is_taken number lines.now }
{
    lines.iter().any(|line| line.has_number(number))
}

/// The least number from 1000 to 60000 that no line has.
fn least_free(alloc: Global, lines: &[Line]) -> Result<Option<Owner>, NoMemory>
    ensures { IfOk result (λ number. number ≡ least_free lines.now) }
{
    let seen = seen(alloc, 59_001, lines)?;
    match seen.iter().position(|is_taken| !*is_taken) {
        Some(place) => Ok(Some(Owner::new(FIRST + place as u32))),
        None => Ok(None),
    }
}

/// Which of the numbers some line has, by their places from the first.
fn seen(alloc: Global, count: usize, lines: &[Line]) -> Result<Vec<bool>, NoMemory>
    ensures count { IfOk result (λ seen. length seen.items ≡ count) }
    ensures taken { IfOk result (λ seen. (place : ℕ) → place < count → slice_index_or seen.items place false ≡ is_taken (1000 + place) lines.now) }
{
    let mut seen = vec![in alloc; false; count]?;
    for line in lines {
        mark(line, &mut seen);
    }
    Ok(seen)
}

/// A number that a line has is seen too.
fn mark(line: &Line, seen: &mut Vec<bool>)
    ensures count { length seen.new.items ≡ length seen.old.items }
    ensures marked { (place : ℕ) → place < length seen.old.items → slice_index_or seen.new.items place false ≡ (slice_index_or seen.old.items place false || has_number (1000 + place) line.now) }
{
    let Some(number) = account_number(line.field(2)) else {
        return;
    };
    if number < FIRST {
        return;
    }
    let place = (number - FIRST) as usize;
    if place < seen.len() {
        seen[place] = true;
    }
}
