//! What an error of the system means to the builder, and how faults are counted.
ghost use Rattle.std.specs.Prelude.{◌≡◌, ◌↔◌, Err};
ghost use Rattle.std.specs.IoError.{error_kind};
ghost use Rattle.osb_base.specs.Faults.{HasCause};

use osb_base::{ReadStop, WriteStop};
use std::io;
use std::io::ErrorKind;

pub(crate) fn read_stop(error: &io::Error) -> ReadStop
    ensures { result ≡ ReadStop.NoMemory ↔ error_kind error.now ≡ ErrorKind.OutOfMemory }
{
    match error.kind() {
        ErrorKind::OutOfMemory => ReadStop::NoMemory,
        _ => ReadStop::Failed,
    }
}

pub(crate) fn write_stop(error: &io::Error) -> WriteStop
    ensures { result ≡ WriteStop.NoMemory ↔ error_kind error.now ≡ ErrorKind.OutOfMemory }
{
    match error.kind() {
        ErrorKind::OutOfMemory => WriteStop::NoMemory,
        _ => WriteStop::Failed,
    }
}

/// Counts a fault where a call that reads ended in one. The count stays at its last value.
pub(crate) fn count_read<T>(faults: &mut u64, done: Result<T, ReadStop>) -> Result<T, ReadStop>
    ensures same { result ≡ done }
    ensures cause { HasCause ReadStop.Failed faults.old faults.new result }
    ensures unmade { result ≡ Err ReadStop.NoMemory → faults.new ≡ faults.old }
{
    if matches!(done, Err(ReadStop::Failed)) {
        *faults = faults.saturating_add(1);
    }
    done
}

/// The same for a call that writes.
pub(crate) fn count_write(faults: &mut u64, done: Result<(), WriteStop>) -> Result<(), WriteStop>
    ensures same { result ≡ done }
    ensures cause { HasCause WriteStop.Failed faults.old faults.new result }
    ensures unmade { result ≡ Err WriteStop.NoMemory → faults.new ≡ faults.old }
{
    if matches!(done, Err(WriteStop::Failed)) {
        *faults = faults.saturating_add(1);
    }
    done
}
