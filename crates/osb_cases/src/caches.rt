ghost use Rattle.std.specs.Prelude.{◌^◌, ◌≤◌, IfOk};

use crate::boards::{block_entry, worker_of};
use crate::cases::Case;
use crate::entries::Entry;
use crate::mistakes::{CaseFault, Mistake};
use osb_base::{Key, NoMemory, Weighed};
use osb_cache::{Cache, Look, Pin, Reserve, Ticket};
use osb_tree::Shared;
use std::alloc::Global;

/// The highest limit of a cache: 2^62.
const MOST_LIMIT: u64 = 4_611_686_018_427_387_904;

/// A chunk that is nothing but its weight.
#[derive(Drop)]
struct Weight {
    bytes: u64,
}

impl Weighed for Weight {
    ghost weight_of = { λ w. w.bytes };

    fn weight(&self) -> u64 {
        self.bytes
    }
}

/// What a cache replied to the actions of a script, a line each, and which keys it has then.
#[derive(Drop)]
pub struct Replies {
    lines: String,
    keys: String,
}

/// Makes the actions of a case's script on an empty cache of the case's limit.
pub fn run_script(alloc: Global, case: &Case) -> Result<Replies, CaseFault> {
    let given = case.needed("limit")?;
    let limit = limit_of(given.value.as_str(), given.line)?;
    let script = block_entry(case, "script")?;
    let mut cache = empty_cache(alloc, limit)?;
    let mut lines = String::new(alloc);
    for (place, action) in script.block.iter().enumerate() {
        let (reply, next) = act(alloc, action.as_str(), script.block_line(place), cache)?;
        cache = next;
        lines.push_str(reply.as_str())?;
        lines.push('\n')?;
    }
    let keys = keys_text(alloc, cache)?;
    Ok(Replies { lines, keys })
}

impl Replies {
    /// What came at a section, and `None` where a script has no such section.
    pub fn section(&self, alloc: Global, due: &Entry) -> Result<Option<Vec<u8>>, NoMemory> {
        match due.name.as_str() {
            "replies" => Ok(Some(Vec::from_slice(alloc, self.lines.as_bytes())?)),
            "keys" => Ok(Some(Vec::from_slice(alloc, self.keys.as_bytes())?)),
            _ => Ok(None),
        }
    }
}

fn number_of(word: &str, line: usize) -> Result<u64, CaseFault> {
    match word.parse::<u64>() {
        Ok(number) => Ok(number),
        Err(_) => Err(Mistake::NoNumber.at(line)),
    }
}

/// A limit of a cache.
pub fn limit_of(word: &str, line: usize) -> Result<u64, CaseFault>
    ensures { IfOk result (λ limit. limit ≤ 2 ^ 62) }
{
    let limit = number_of(word, line)?;
    if limit > MOST_LIMIT {
        return Err(Mistake::NoLimit.at(line));
    }
    Ok(limit)
}

fn empty_cache(alloc: Global, limit: u64) -> Result<Cache<Weight>, NoMemory>
    requires { limit ≤ 2 ^ 62 }
{
    Cache::open(alloc, limit, Vec::new(alloc))
}

/// A cache of the entries of this one, with this limit.
fn reopen(alloc: Global, cache: Cache<Weight>, limit: u64) -> Result<Cache<Weight>, NoMemory>
    requires { limit ≤ 2 ^ 62 }
{
    let entries = cache.into_entries(alloc)?;
    Cache::open(alloc, limit, entries)
}

/// The keys of the entries, first the one that was used first.
fn keys_text(alloc: Global, cache: Cache<Weight>) -> Result<String, NoMemory> {
    let mut text = String::new(alloc);
    for (place, stored) in cache.into_entries(alloc)?.iter().enumerate() {
        if place > 0 {
            text.push(' ')?;
        }
        text.push_str(format!(in alloc; "{}", stored.key.0)?.as_str())?;
    }
    Ok(text)
}

/// Makes one action, and gives the reply and the cache after it.
fn act(
    alloc: Global,
    action: &str,
    line: usize,
    mut cache: Cache<Weight>,
) -> Result<(String, Cache<Weight>), CaseFault> {
    let words: Vec<&str> = action.split(' ').collect(alloc)?;
    if let ["open", limit] = words.as_slice() {
        let cache = reopen(alloc, cache, limit_of(limit, line)?)?;
        return Ok((String::from_str(alloc, "opened")?, cache));
    }
    let reply = match words.as_slice() {
        ["look", worker, keys @ ..] => look(alloc, worker, keys, line, &mut cache)?,
        ["read", worker, key, place] => {
            read(
                alloc,
                pin_of(worker, key, line)?,
                number_of(place, line)?,
                &cache,
            )?
        }
        ["unpin", worker, key] => unpin(alloc, pin_of(worker, key, line)?, &mut cache)?,
        ["counted"] => Some(format!(in alloc; "{}", cache.counted())?),
        ["clock"] => Some(format!(in alloc; "{}", cache.clock())?),
        _ => fill(alloc, &words, line, &mut cache)?,
    };
    match reply {
        Some(reply) => Ok((reply, cache)),
        None => Err(Mistake::NotAllowed.at(line)),
    }
}

/// The reply to an action that fills an entry, and `None` where its condition does not hold.
fn fill(
    alloc: Global,
    words: &[&str],
    line: usize,
    cache: &mut Cache<Weight>,
) -> Result<Option<String>, CaseFault> {
    match words {
        ["reserve", worker, key, size, chunks] => {
            let ticket = ticket_of(worker, key, line)?;
            let size = number_of(size, line)?;
            let chunks = number_of(chunks, line)?;
            reserve(alloc, ticket, size, chunks as usize, cache)
        }
        ["put", worker, key, weight] => {
            put(
                alloc,
                ticket_of(worker, key, line)?,
                number_of(weight, line)?,
                cache,
            )
        }
        ["commit", worker, key] => commit(alloc, ticket_of(worker, key, line)?, cache),
        ["drop", worker, key] => give_up(alloc, ticket_of(worker, key, line)?, cache),
        _ => Err(Mistake::NotAnAction.at(line)),
    }
}

fn pin_of(worker: &str, key: &str, line: usize) -> Result<Pin, CaseFault> {
    Ok(Pin {
        worker: worker_of(worker, line)?,
        key: Key(number_of(key, line)?),
    })
}

fn ticket_of(worker: &str, key: &str, line: usize) -> Result<Ticket, CaseFault> {
    Ok(Ticket {
        worker: worker_of(worker, line)?,
        key: Key(number_of(key, line)?),
    })
}

fn look(
    alloc: Global,
    worker: &str,
    words: &[&str],
    line: usize,
    cache: &mut Cache<Weight>,
) -> Result<Option<String>, CaseFault> {
    let worker = worker_of(worker, line)?;
    let mut keys = Vec::new(alloc);
    for word in words {
        keys.push(Key(number_of(word, line)?))?;
    }
    if cache.clock() == u64::MAX {
        return Ok(None);
    }
    let reply = match cache.look(worker, &keys)? {
        Look::Hit { place, key, chunks } => format!(in alloc; "hit {place} {} {chunks}", key.0)?,
        Look::Miss => String::from_str(alloc, "miss")?,
    };
    Ok(Some(reply))
}

fn read(
    alloc: Global,
    pin: Pin,
    place: u64,
    cache: &Cache<Weight>,
) -> Result<Option<String>, CaseFault> {
    let place = place as usize;
    if !cache.is_pinned(pin) || place >= cache.chunk_count(pin.key) {
        return Ok(None);
    }
    let chunk = cache.read(pin, place)?;
    Ok(Some(format!(in alloc; "{}", chunk.get().bytes)?))
}

fn unpin(alloc: Global, pin: Pin, cache: &mut Cache<Weight>) -> Result<Option<String>, CaseFault> {
    if !cache.is_pinned(pin) {
        return Ok(None);
    }
    cache.unpin(pin);
    Ok(Some(String::from_str(alloc, "unpinned")?))
}

fn reserve(
    alloc: Global,
    ticket: Ticket,
    size: u64,
    chunks: usize,
    cache: &mut Cache<Weight>,
) -> Result<Option<String>, CaseFault> {
    let reply = match cache.reserve(alloc, ticket.worker, ticket.key, size, chunks)? {
        Reserve::Room { evicted } => format!(in alloc; "room {evicted}")?,
        Reserve::Already => String::from_str(alloc, "already")?,
        Reserve::TooLarge => String::from_str(alloc, "too large")?,
        Reserve::Full => String::from_str(alloc, "full")?,
    };
    Ok(Some(reply))
}

fn put(
    alloc: Global,
    ticket: Ticket,
    bytes: u64,
    cache: &mut Cache<Weight>,
) -> Result<Option<String>, CaseFault> {
    let chunk = Shared::new(alloc, Weight { bytes })?;
    if !cache.can_put(ticket, chunk.get()) {
        return Ok(None);
    }
    cache.put(ticket, chunk);
    Ok(Some(String::from_str(alloc, "put")?))
}

fn commit(
    alloc: Global,
    ticket: Ticket,
    cache: &mut Cache<Weight>,
) -> Result<Option<String>, CaseFault> {
    if cache.clock() == u64::MAX || !cache.can_commit(ticket) {
        return Ok(None);
    }
    cache.commit(ticket);
    Ok(Some(String::from_str(alloc, "committed")?))
}

fn give_up(
    alloc: Global,
    ticket: Ticket,
    cache: &mut Cache<Weight>,
) -> Result<Option<String>, CaseFault> {
    if !cache.has_ticket(ticket) {
        return Ok(None);
    }
    cache.drop_ticket(ticket);
    Ok(Some(String::from_str(alloc, "dropped")?))
}
