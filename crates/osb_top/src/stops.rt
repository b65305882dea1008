//! Runs that end before their exports, with one line.
ghost use Rattle.std.specs.Prelude.{◌≡◌, ◌⊎◌, codes, IfOk, IfSome, string_bytes};
ghost use Rattle.osb_top.specs.Stops.{stop_line, stop_status, words_refused, load_failed, store_refused, no_memory, IsStop};
ghost use Rattle.osb_top.specs.Writing.{IsWritten};

use crate::Status;
use crate::writes::write_text;
use osb_base::{NoMemory, Sink};
use osb_store::StoreRefusal;
use std::alloc::Global;

pub(crate) fn lack_memory<O: Sink>(out: &mut O) -> Status
    ensures { IsStop (record { before = O.taken out.old; now = O.taken out.new; faults = record { before = O.sink_faults out.old; now = O.sink_faults out.new } }) no_memory result.0 }
{
    write_text("want of memory\n", 7, out)
}

pub(crate) fn refuse_words<O: Sink>(out: &mut O) -> Status
    ensures { IsStop (record { before = O.taken out.old; now = O.taken out.new; faults = record { before = O.sink_faults out.old; now = O.sink_faults out.new } }) words_refused result.0 }
{
    write_text("words refused\n", 2, out)
}

pub(crate) fn refuse_load<O: Sink>(out: &mut O) -> Status
    ensures { IsStop (record { before = O.taken out.old; now = O.taken out.new; faults = record { before = O.sink_faults out.old; now = O.sink_faults out.new } }) load_failed result.0 }
{
    write_text("store read fault\n", 3, out)
}

/// Says why there is no store; for want of memory, that.
pub(crate) fn refuse_store<O: Sink>(alloc: Global, refusal: StoreRefusal, out: &mut O) -> Status
    ensures { ((refusal ≡ StoreRefusal.NoMemory → ⊥) × IsStop (record { before = O.taken out.old; now = O.taken out.new; faults = record { before = O.sink_faults out.old; now = O.sink_faults out.new } }) (store_refused refusal) result.0) ⊎ IsStop (record { before = O.taken out.old; now = O.taken out.new; faults = record { before = O.sink_faults out.old; now = O.sink_faults out.new } }) no_memory result.0 }
{
    match refused_line(alloc, refusal) {
        Some(line) => write_text(line.as_str(), 4, out),
        None => lack_memory(out),
    }
}

/// The line, where there is memory for it, and none was lacking before.
fn refused_line(alloc: Global, refusal: StoreRefusal) -> Option<String>
    ensures line { IfSome result (λ line. string_bytes line ≡ stop_line (store_refused refusal)) }
    ensures other { IfSome result (λ line. refusal ≡ StoreRefusal.NoMemory → ⊥) }
{
    match refusal {
        StoreRefusal::Magic => String::from_str(alloc, "store refused 1\n").ok(),
        StoreRefusal::Truncated => String::from_str(alloc, "store refused 2\n").ok(),
        StoreRefusal::TrailingBytes => String::from_str(alloc, "store refused 3\n").ok(),
        StoreRefusal::Digest => String::from_str(alloc, "store refused 4\n").ok(),
        StoreRefusal::Shape(place) => shape_line(alloc, place).ok(),
        StoreRefusal::NoMemory => None,
    }
}

fn shape_line(alloc: Global, place: u64) -> Result<String, NoMemory>
    ensures { IfOk result (λ line. string_bytes line ≡ stop_line (store_refused (StoreRefusal.Shape place))) }
{
    format!(in alloc; "store refused 5 {place}\n")
}
