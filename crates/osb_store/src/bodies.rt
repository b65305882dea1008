//! The body of a store: blobs, recipes and entries.
ghost use Rattle.osb_store.specs.Lists.{body_at, GivesFrom};

use crate::lists::{blobs_of, entries_of, recipes_of};
use crate::{Store, StoreRefusal};
use std::alloc::Global;

#[tactic(auto, unfolding(crate::specs::Lists::body_at))]
pub(crate) fn body_of(alloc: Global, bytes: &[u8]) -> Result<Store, StoreRefusal>
    ensures { GivesFrom (λ store. store) result (body_at bytes.now) }
{
    let (blobs, rest) = blobs_of(alloc, bytes)?;
    let (recipes, rest) = recipes_of(alloc, blobs.into_table(), rest)?;
    let table = recipes.into_table();
    let blobs = table.blobs().len() as u64;
    let keys = table.recipes().len() as u64;
    let (entries, rest) = entries_of(alloc, blobs, keys, rest)?;
    let entries = entries.into_list();
    if !rest.is_empty() {
        let count = entries.as_slice().len() as u64;
        return Err(StoreRefusal::Shape(3 + blobs + keys + count));
    }
    Ok(Store { table, entries })
}
