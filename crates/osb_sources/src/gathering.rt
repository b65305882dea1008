ghost use Rattle.std.specs.Prelude.{◌≡◌, ℕ, List, map, Err, IfOk};
ghost use Rattle.osb_sources.specs.Rounds.{IsRound, Gathers, IsThinned, SomeRose, AreItems};

use crate::asking::search_fetchers;
use crate::notes::Notes;
use crate::own::{lists_elsewhere, look_inline};
use crate::replies::Reply;
use crate::{Items, SourceAnswer};
use osb_base::{Bytes, Digest, Fetcher, List};
use std::alloc::Global;

fn gather_one<F: Fetcher>(
    alloc: Global,
    items: &Items,
    digest: &Digest,
    fetchers: &mut Vec<F>,
) -> Result<Bytes, SourceAnswer>
    ensures { IsRound items.now digest.now (map F.fetcher_state fetchers.old.items) (map F.fetcher_state fetchers.new.items) result }
{
    match look_inline(alloc, items, digest)? {
        Reply::Right(bytes) => Ok(bytes),
        own => {
            if lists_elsewhere(items, digest) {
                search_fetchers(alloc, digest, &own, fetchers)
            } else {
                Err(Notes::new().with(&own).lack(digest)?)
            }
        }
    }
}

/// The bytes of the wanted items, in order. The manifest's own text of an item is read first; the fetchers are asked
/// for one that it lists as to be had elsewhere, unless that text decides. After the first item that is not had, no
/// further one is looked for.
pub fn gather<F: Fetcher>(
    alloc: Global,
    items: &Items,
    wanted: &[Digest],
    fetchers: &mut Vec<F>,
) -> Result<List<Bytes>, SourceAnswer>
    ensures gathers { Gathers items.now wanted.now (map F.fetcher_state fetchers.old.items) (map F.fetcher_state fetchers.new.items) result }
    ensures left { IsThinned (map F.fetcher_state fetchers.old.items) (map F.fetcher_state fetchers.new.items) }
    ensures cause { (digest : List ℕ) → result ≡ Err (SourceAnswer.Fault digest) → SomeRose (map F.fetcher_state fetchers.old.items) (map F.fetcher_state fetchers.new.items) }
    ensures bytes { IfOk result (λ all. AreItems wanted.now all) }
{
    let mut all = Vec::new(alloc);
    for digest in wanted {
        all.push(gather_one(alloc, items, digest, fetchers)?)?;
    }
    Ok(List::new(all))
}
