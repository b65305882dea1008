//! A law of the texts of logs, as the contract of a function that gives nothing.
ghost use Rattle.std.specs.Prelude.{◌≡◌, ◌<◌, ◌^◌};
ghost use Rattle.osb_log.specs.Texts.{log_text};
ghost use Rattle.osb_log.specs.Fits.{EventFits, EntryFits, LogFits};

use osb_job::{Entry, Event};
use osb_state::Opened;

/// That different logs have different texts: where two have one text, they are one log.
pub fn texts_tell_logs(opened: &Opened, log: &[Entry], other_opened: &Opened, other_log: &[Entry])
    ensures opened { log_text opened.now log.now ≡ log_text other_opened.now other_log.now → opened.now ≡ other_opened.now }
    ensures log { log_text opened.now log.now ≡ log_text other_opened.now other_log.now → log.now ≡ other_log.now }
{
    log_fits(opened, log);
    log_fits(other_opened, other_log);
}

/// That the numbers of a log have 64 bits.
fn log_fits(opened: &Opened, log: &[Entry])
    ensures { LogFits opened.now log.now }
{
    number_fits(opened.kept);
    number_fits(opened.bytes);
    number_fits(opened.evicted);
    for entry in log {
        number_fits(u64::from(entry.worker.0));
        event_fits(entry.event);
    }
}

fn event_fits(event: Event)
    ensures { EventFits event }
{
    match event {
        Event::Claim(task) | Event::Fetch(task, _) | Event::Done(task, _) => number_fits(task.0),
        Event::Hit(key)
        | Event::Unpin(key)
        | Event::Already(key)
        | Event::TooLarge(key)
        | Event::Full(key)
        | Event::Commit(key)
        | Event::Drop(key) => number_fits(key.0),
        Event::Read(key, number) | Event::Room(key, number) | Event::Put(key, number) => {
            number_fits(key.0);
            number_fits(number as u64);
        }
        Event::Over | Event::Miss => {}
    }
}

fn number_fits(number: u64)
    ensures { number < 2 ^ 64 }
{
    let _ = number;
}
