ghost use Rattle.std.specs.Prelude.{◌≡◌, ◌++◌, ◌<◌, ◌≤◌, length, take, option_map};
ghost use Rattle.osb_base.specs.Faults.{Rose};
ghost use Rattle.osb_top.specs.Writing.{IsWritten};

use crate::Status;
use osb_base::Sink;

/// Writes a text to its end, or until the sink fails, and says how many of its bytes were taken.
pub fn write_all<O: Sink>(text: &[u8], out: &mut O) -> usize
    ensures within { result ≤ length text.now }
    ensures taken { O.taken out.new ≡ option_map (λ old. old ++ take result text.now) (O.taken out.old) }
    ensures later { O.sink_faults out.old ≤ O.sink_faults out.new }
    ensures stopped { result < length text.now → Rose (O.sink_faults out.old) (O.sink_faults out.new) }
{
    let mut count = 0;
    while count < text.len() {
        match out.write(&text[count..]) {
            Ok(0) | Err(_) => return count,
            Ok(more) => count += more,
        }
    }
    count
}

/// Writes a text. The status is the usual one, unless the sink fails.
pub(crate) fn write_text<O: Sink>(text: &str, usual: u8, out: &mut O) -> Status
    ensures { IsWritten (record { before = O.taken out.old; now = O.taken out.new; faults = record { before = O.sink_faults out.old; now = O.sink_faults out.new } }) text.now usual result.0 }
{
    write_bytes(text.as_bytes(), usual, out)
}

/// The same for a text that is given as its bytes.
pub(crate) fn write_bytes<O: Sink>(text: &[u8], usual: u8, out: &mut O) -> Status
    ensures { IsWritten (record { before = O.taken out.old; now = O.taken out.new; faults = record { before = O.sink_faults out.old; now = O.sink_faults out.new } }) text.now usual result.0 }
{
    if write_all(text, out) == text.len() {
        Status(usual)
    } else {
        Status(6)
    }
}
