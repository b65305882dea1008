//! Bytes written to an opened file or stream.
ghost use Rattle.std.specs.Prelude.{◌≡◌, ◌≢◌, ◌<◌, ◌≤◌, length, take, IfOk, IfErr, OnOk, OnErr};
ghost use Rattle.std.specs.Io.KnownBytes.{Appends, Keeps};
ghost use Rattle.std.specs.Io.{WritesAtMost};
ghost use Rattle.std.specs.IoError.{error_kind};

use crate::MOST_TURNS;
use crate::stops::write_stop;
use osb_base::{Failed, WriteStop};
use std::fs;
use std::io::{ErrorKind, Write};
use std::rt::Files;

/// Writes a file with these bytes alone.
pub(crate) fn write_file(files: &impl Files, place: &str, bytes: &[u8]) -> Result<(), WriteStop> {
    match fs::create(files, place) {
        Ok(mut file) => write_whole(&mut file, bytes),
        Err(error) => Err(write_stop(&error)),
    }
}

pub(crate) fn write_whole<W: Write>(out: &mut W, bytes: &[u8]) -> Result<(), WriteStop>
    ensures { OnOk result (Appends (W.contents out.old) (W.contents out.new) bytes.now) }
{
    let mut rest = bytes;
    for _ in 0..MOST_TURNS {
        if rest.is_empty() {
            return Ok(());
        }
        let count = write_some(out, rest)?;
        rest = &rest[count..];
    }
    Err(WriteStop::Failed)
}

/// One write of a front of the bytes, which are some. An interrupted write takes none of them.
fn write_some<W: Write>(out: &mut W, bytes: &[u8]) -> Result<usize, WriteStop>
    ensures within { IfOk result (λ count. count ≤ length bytes.now) }
    ensures bytes { IfOk result (λ count. Appends (W.contents out.old) (W.contents out.new) (take count bytes.now)) }
{
    match out.write(bytes) {
        Ok(0) => Err(WriteStop::Failed),
        Ok(count) => Ok(count),
        Err(error) if error.kind() == ErrorKind::Interrupted => Ok(0),
        Err(error) => Err(write_stop(&error)),
    }
}

/// One write of a front of a piece, which is out when this returns.
pub(crate) fn write_piece<W: Write>(out: &mut W, piece: &[u8]) -> Result<usize, Failed>
    ensures within { IfOk result (λ count. count ≤ length piece.now) }
    ensures some { IfOk result (λ count. 0 < length piece.now → 0 < count) }
    ensures bytes { IfOk result (λ count. Appends (W.contents out.old) (W.contents out.new) (take count piece.now)) }
{
    for _ in 0..MOST_TURNS {
        match out.write(piece) {
            Ok(0) if !piece.is_empty() => return Err(Failed),
            Ok(count) => return flushed(out, count),
            Err(error) if error.kind() == ErrorKind::Interrupted => {}
            Err(_) => return Err(Failed),
        }
    }
    Err(Failed)
}

fn flushed<W: Write>(out: &mut W, count: usize) -> Result<usize, Failed>
    ensures same { IfOk result (λ taken. taken ≡ count) }
    ensures keeps { Keeps (W.contents out.old) (W.contents out.new) }
{
    match out.flush() {
        Ok(()) => Ok(count),
        Err(_) => Err(Failed),
    }
}
