ghost use Rattle.std.specs.Prelude.{◌≡◌, Some, IfOk};
ghost use Rattle.osb_sources.specs.Verdicts.{judged};
ghost use Rattle.osb_sources.specs.Replies.{IsReply, verdict_of};

use osb_base::{Bytes, Digest, Fetched, NoMemory, ReadStop};
use sha2::{Digest as Hasher, Sha256};
use std::alloc::AllocError;

/// How many bytes an item has at most.
pub const MOST_ITEM_BYTES: usize = 16_777_216;

/// What is had of an item from one place.
#[derive(Debug, Drop)]
pub enum Reply {
    /// The fetcher is gone for good.
    Gone,
    Failed,
    Absent,
    TooLarge,
    /// Bytes of another digest.
    Wrong,
    Right(Bytes),
}

pub fn judge(digest: &Digest, bytes: Bytes) -> Reply
    ensures verdict { verdict_of result ≡ Some (judged digest.now bytes) }
{
    if bytes.len() > MOST_ITEM_BYTES {
        return Reply::TooLarge;
    }
    let own = Sha256::digest(bytes.as_slice());
    if own.as_slice() == digest.as_slice() {
        Reply::Right(bytes)
    } else {
        Reply::Wrong
    }
}

pub fn reply_of(digest: &Digest, answer: Result<Fetched, ReadStop>) -> Result<Reply, NoMemory>
    ensures { IfOk result (IsReply digest.now answer) }
{
    match answer {
        Ok(Fetched::Bytes(bytes)) => Ok(judge(digest, bytes)),
        Ok(Fetched::Absent) => Ok(Reply::Absent),
        Ok(Fetched::Gone) => Ok(Reply::Gone),
        Err(ReadStop::Failed) => Ok(Reply::Failed),
        Err(ReadStop::NoMemory) => Err(AllocError),
    }
}
