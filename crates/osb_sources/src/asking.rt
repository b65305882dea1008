ghost use Rattle.std.specs.Prelude.{◌≡◌, ℕ, ◌+◌, ◌<◌, ◌^◌, map, None, IfOk, vec_len};
ghost use Rattle.osb_base.specs.Fetchers.{IsFetch};
ghost use Rattle.osb_sources.specs.Verdicts.{first_right};
ghost use Rattle.osb_sources.specs.Replies.{IsAsk, IsSearch, heard, is_gone_answer, moved};

use crate::SourceAnswer;
use crate::notes::Notes;
use crate::replies::{Reply, reply_of};
use osb_base::{Bytes, Digest, Fetched, Fetcher, NoMemory, ReadStop};
use std::alloc::Global;

fn fetch_from<F: Fetcher>(
    alloc: Global,
    fetcher: &mut F,
    digest: &Digest,
) -> Result<Fetched, ReadStop>
    ensures { IsFetch digest.now (F.fetcher_state fetcher.old) (F.fetcher_state fetcher.new) result }
{
    fetcher.fetch(alloc, digest)
}

fn is_gone(answer: &Result<Fetched, ReadStop>) -> bool
    ensures { result ≡ is_gone_answer answer.now }
{
    match answer {
        Ok(Fetched::Gone) => true,
        _ => false,
    }
}

/// Asks the fetcher at a place. One that is gone is taken out and dropped.
fn ask<F: Fetcher>(
    alloc: Global,
    fetchers: &mut Vec<F>,
    at: usize,
    digest: &Digest,
) -> Result<Reply, NoMemory>
    requires { at < vec_len fetchers.old }
    ensures asked { IsAsk digest.now at (map F.fetcher_state fetchers.old.items) (map F.fetcher_state fetchers.new.items) result }
    ensures rest { IfOk result (λ reply. vec_len fetchers.new + 1 ≡ vec_len fetchers.old + moved reply) }
{
    let answer = fetch_from(alloc, &mut fetchers[at], digest);
    if is_gone(&answer) {
        drop(fetchers.remove(at));
        return Ok(Reply::Gone);
    }
    reply_of(digest, answer)
}

/// The place of the next fetcher: where one was taken out, the one after it has its place.
fn next_place(at: usize, reply: &Reply) -> usize
    requires { at + 1 < 2 ^ 64 }
    ensures { result ≡ at + moved reply.now }
{
    match reply {
        Reply::Gone => at,
        _ => at + 1,
    }
}

/// Asks the fetchers in order until one has the item's bytes. `own` is what is had of it elsewhere.
pub fn search_fetchers<F: Fetcher>(
    alloc: Global,
    digest: &Digest,
    own: &Reply,
    fetchers: &mut Vec<F>,
) -> Result<Bytes, SourceAnswer>
    ensures { first_right (heard own.now) ≡ None → IsSearch digest.now (heard own.now) (map F.fetcher_state fetchers.old.items) (map F.fetcher_state fetchers.new.items) result }
{
    let mut notes = Notes::new().with(own);
    let mut at = 0;
    while at < fetchers.len() {
        match ask(alloc, fetchers, at, digest)? {
            Reply::Right(bytes) => return Ok(bytes),
            reply => {
                notes = notes.with(&reply);
                at = next_place(at, &reply);
            }
        }
    }
    Err(notes.lack(digest)?)
}
