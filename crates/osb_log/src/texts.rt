ghost use Rattle.std.specs.Prelude.{◌≡◌, ◌+◌, ◌++◌, IfOk, OnOk, string_bytes};
ghost use Rattle.osb_log.specs.Texts.{word_text, event_text, entry_line, entry_lines, opened_line, log_text};

use osb_base::{Bytes, NoMemory};
use osb_job::{Entry, Event, Word};
use osb_state::Opened;
use std::alloc::Global;
use std::fmt::Write;

/// The text of a log: `open KEPT BYTES EVICTED` for what the cache was opened with, and a line `TURN WORKER WORDS` for
/// each entry, turns from 1.
pub fn log_text(alloc: Global, opened: &Opened, log: &[Entry]) -> Result<Bytes, NoMemory>
    ensures text { IfOk result (λ text. text ≡ log_text opened.now log.now) }
{
    let mut out = String::new(alloc);
    write_opened(&mut out, opened)?;
    for (place, entry) in log.iter().enumerate() {
        write_entry(&mut out, place + 1, entry)?;
    }
    Ok(Bytes::new(out.into_bytes()))
}

fn write_opened(out: &mut String, opened: &Opened) -> Result<(), NoMemory>
    ensures { OnOk result (string_bytes out.new ≡ string_bytes out.old ++ opened_line opened.now) }
{
    write!(
        out,
        "open {} {} {}\n",
        opened.kept, opened.bytes, opened.evicted
    )
}

fn write_entry(out: &mut String, turn: usize, entry: &Entry) -> Result<(), NoMemory>
    ensures { OnOk result (string_bytes out.new ≡ string_bytes out.old ++ entry_line turn entry.now) }
{
    write!(out, "{turn} {} ", entry.worker.0)?;
    write_event(out, entry.event)?;
    out.push_str("\n")
}

fn write_event(out: &mut String, event: Event) -> Result<(), NoMemory>
    ensures { OnOk result (string_bytes out.new ≡ string_bytes out.old ++ event_text event) }
{
    match event {
        Event::Claim(task) => write!(out, "claim {}", task.0),
        Event::Over => out.push_str("over"),
        Event::Fetch(dep, word) => write!(out, "fetch {} {}", dep.0, word_str(word)),
        Event::Hit(key) => write!(out, "look hit {}", key.0),
        Event::Miss => out.push_str("look miss"),
        Event::Read(key, place) => write!(out, "read {} {place}", key.0),
        Event::Unpin(key) => write!(out, "unpin {}", key.0),
        Event::Room(key, evicted) => write!(out, "reserve {} room {evicted}", key.0),
        Event::Already(key) => write!(out, "reserve {} already", key.0),
        Event::TooLarge(key) => write!(out, "reserve {} too large", key.0),
        Event::Full(key) => write!(out, "reserve {} full", key.0),
        Event::Put(key, place) => write!(out, "put {} {place}", key.0),
        Event::Commit(key) => write!(out, "commit {}", key.0),
        Event::Drop(key) => write!(out, "drop {}", key.0),
        Event::Done(task, word) => write!(out, "done {} {}", task.0, word_str(word)),
    }
}

fn word_str(word: Word) -> &'static str
    ensures { result.now ≡ word_text word }
{
    match word {
        Word::Tree => "tree",
        Word::Fault => "fault",
        Word::Blocked => "blocked",
        Word::NoMemory => "no memory",
    }
}
