//! The bytes of an opened file, read until its end or the limit of a shelf.
ghost use Rattle.std.specs.Prelude.{◌≡◌, ◌<◌, ◌≤◌, length, None, Some, Ok, IsErrAnd, IfOk, IfSome, IsTrue, OnOk, vec_len};
ghost use Rattle.osb_host.specs.Fronts.{HasAppended, IsWhole};
ghost use Rattle.std.specs.IoError.{error_kind};
ghost use Rattle.osb_base.specs.Shelves.{IsCut, cut};

use crate::MOST_TURNS;
use crate::stops::read_stop;
use osb_base::{Bytes, MOST_FILE_BYTES, ReadStop};
use std::alloc::Global;
use std::io;
use std::io::{ErrorKind, Read};

/// How many bytes are asked for at once.
const CHUNK: usize = 65_536;

/// What a shelf answers where this came of opening a file.
pub fn read_opened<F: Read + Drop>(
    alloc: Global,
    opened: io::Result<F>,
) -> Result<Option<Bytes>, ReadStop>
    ensures absent { IsErrAnd opened (λ e. error_kind e ≡ ErrorKind.NotFound) → result ≡ Ok None }
    ensures present { result ≡ Ok None → IsErrAnd opened (λ e. error_kind e ≡ ErrorKind.NotFound) }
    ensures front { IfOk opened (λ file. IfOk result (λ found. IfSome (F.remaining file) (λ bytes. found ≡ Some (cut bytes)))) }
    ensures short { IsCut result }
{
    match found(opened)? {
        Some(mut file) => Ok(Some(read_front(alloc, &mut file)?)),
        None => Ok(None),
    }
}

/// What a keeper loads where this came of opening its file.
pub fn load_opened<F: Read + Drop>(
    alloc: Global,
    opened: io::Result<F>,
) -> Result<Option<Bytes>, ReadStop>
    ensures absent { IsErrAnd opened (λ e. error_kind e ≡ ErrorKind.NotFound) → result ≡ Ok None }
    ensures present { result ≡ Ok None → IsErrAnd opened (λ e. error_kind e ≡ ErrorKind.NotFound) }
    ensures whole { IfOk opened (λ file. IfOk result (λ loaded. IfSome (F.remaining file) (λ bytes. loaded ≡ Some bytes))) }
{
    match found(opened)? {
        Some(mut file) => Ok(Some(read_all(alloc, &mut file)?)),
        None => Ok(None),
    }
}

/// An opened file, or none where no file has the name.
fn found<F: Drop>(opened: io::Result<F>) -> Result<Option<F>, ReadStop>
    ensures opened { IfOk opened (λ file. result ≡ Ok (Some file)) }
    ensures absent { IsErrAnd opened (λ e. error_kind e ≡ ErrorKind.NotFound) → result ≡ Ok None }
    ensures present { result ≡ Ok None → IsErrAnd opened (λ e. error_kind e ≡ ErrorKind.NotFound) }
    ensures open { IfOk result (λ found. IfSome found (λ file. opened ≡ Ok file)) }
{
    match opened {
        Ok(file) => Ok(Some(file)),
        Err(error) if error.kind() == ErrorKind::NotFound => Ok(None),
        Err(error) => Err(read_stop(&error)),
    }
}

fn read_all<F: Read>(alloc: Global, file: &mut F) -> Result<Bytes, ReadStop>
    ensures whole { IfOk result (λ all. IfSome (F.remaining file.old) (λ bytes. all ≡ bytes)) }
{
    let mut all = Vec::new(alloc);
    match file.read_to_end(&mut all) {
        Ok(_) => Ok(Bytes::new(all)),
        Err(error) => Err(read_stop(&error)),
    }
}

fn read_front<F: Read>(alloc: Global, file: &mut F) -> Result<Bytes, ReadStop>
    ensures front { IfOk result (λ front. IfSome (F.remaining file.old) (λ bytes. front ≡ cut bytes)) }
    ensures short { IfOk result (λ front. length front ≤ 16777217) }
{
    let mut front = Vec::new(alloc);
    let mut buffer = vec![in alloc; 0u8; CHUNK]?;
    for _ in 0..MOST_TURNS {
        if read_more(file, &mut buffer, &mut front)? {
            return Ok(Bytes::new(front));
        }
    }
    Err(ReadStop::Failed)
}

/// Puts the bytes of one read after the front, and says whether nothing is left to read.
fn read_more<F: Read>(
    file: &mut F,
    buffer: &mut [u8],
    front: &mut Vec<u8>,
) -> Result<bool, ReadStop>
    requires some { 0 < length buffer.old }
    requires short { vec_len front.old ≤ 16777217 }
    ensures room { length buffer.new ≡ length buffer.old }
    ensures short { vec_len front.new ≤ 16777217 }
    ensures bytes { OnOk result (HasAppended front.old.items front.new.items (F.remaining file.old) (F.remaining file.new)) }
    ensures end { IfOk result (λ ended. IsTrue ended → IsWhole front.new.items (F.remaining file.new)) }
{
    let most = (MOST_FILE_BYTES - front.len()).min(buffer.len());
    if most == 0 {
        return Ok(true);
    }
    match file.read(&mut buffer[..most]) {
        Ok(0) => Ok(true),
        Ok(count) => {
            front.extend_from_slice(&buffer[..count])?;
            Ok(false)
        }
        Err(error) if error.kind() == ErrorKind::Interrupted => Ok(false),
        Err(error) => Err(read_stop(&error)),
    }
}
