//! The tests of what a job asks of its callers.
ghost use Rattle.std.specs.Prelude.{◌≡◌, ◌↔◌, ◌<◌, ◌==◌, ◌++◌, ◌∷◌, [], IsTrue, IfOk, Some, length, slice_get};
ghost use Rattle.osb_recipe.specs.declared.plans.Plan.{Plan as PlanData};
ghost use Rattle.osb_tree.specs.Chunks.{AreOfATree};
ghost use Rattle.osb_job.specs.Jobs.{CanWant, Fits, IsOf};

use crate::stages::marked_at;
use crate::{Place, Reply};
use osb_board::Claim;
use osb_cache::Look;
use osb_recipe::Plan;
use osb_tree::{Chunk, Key, NoMemory, Shared, Tree};
use std::alloc::Global;

pub(crate) fn can_want(place: &Place) -> bool
    ensures { IsTrue result ↔ CanWant place.now }
{
    !matches!(place, Place::Putting { .. } | Place::Ended)
}

pub(crate) fn is_of(plan: &Plan, place: &Place) -> bool
    ensures { IsTrue result ↔ IsOf plan.now place.now }
{
    match place {
        Place::Looking { setup }
        | Place::Reading { setup, .. }
        | Place::Holding { setup, .. }
        | Place::Reserving { setup, .. }
        | Place::Filling { setup, .. }
        | Place::Putting { setup, .. } => {
            setup.trees.as_slice().len() == plan.table.recipes().len()
        }
        _ => true,
    }
}

pub(crate) fn fits(
    alloc: Global,
    plan: &Plan,
    place: &Place,
    reply: &Reply,
) -> Result<bool, NoMemory>
    ensures { IfOk result (λ fits. IsTrue fits ↔ Fits plan.now place.now reply.now) }
{
    match reply {
        Reply::Claimed(claim) => Ok(fits_claim(plan, place, *claim)),
        Reply::Fetched(_) => Ok(matches!(place, Place::Fetching { .. })),
        Reply::Looked(look) => Ok(fits_look(plan, place, *look)),
        Reply::Chunk(chunk) => fits_chunk(alloc, place, chunk),
        Reply::Reserved(_) => Ok(matches!(place, Place::Reserving { .. })),
        Reply::Plain => Ok(fits_plain(place)),
    }
}

fn fits_claim(plan: &Plan, place: &Place, claim: Claim) -> bool
    ensures { IsTrue result ↔ Fits plan.now place.now (Reply.Claimed claim) }
{
    let Place::Outside = place else {
        return false;
    };
    match claim {
        Claim::Task(task) => task.0 < plan.tasks.as_slice().len() as u64,
        Claim::Idle | Claim::Over => true,
    }
}

fn fits_look(plan: &Plan, place: &Place, look: Look) -> bool
    ensures { IsTrue result ↔ Fits plan.now place.now (Reply.Looked look) }
{
    let Place::Looking { setup } = place else {
        return false;
    };
    match look {
        Look::Hit { place, key, chunks } => {
            chunks > 0 && is_at(marked_at(plan, setup.task), place, key)
        }
        Look::Miss => true,
    }
}

fn is_at(keys: &[Key], place: usize, key: Key) -> bool
    ensures { IsTrue result ↔ (slice_get keys.now place ≡ Some key) }
{
    keys.get(place).is_some_and(|held| *held == key)
}

fn fits_chunk(alloc: Global, place: &Place, chunk: &Shared<Chunk>) -> Result<bool, NoMemory>
    ensures { IfOk result (λ fits. (plan : PlanData) → (IsTrue fits ↔ Fits plan place.now (Reply.Chunk chunk.now))) }
{
    let Place::Reading { count, parts, .. } = place else {
        return Ok(false);
    };
    is_next(alloc, *count, parts.as_slice(), chunk)
}

/// Whether a chunk may come behind others of an entry of so many: with the last one they are those of a tree.
fn is_next(
    alloc: Global,
    count: usize,
    parts: &[Shared<Chunk>],
    chunk: &Shared<Chunk>,
) -> Result<bool, NoMemory>
    ensures { let all = parts.now ++ chunk.now ∷ [] in IfOk result (λ next. IsTrue next ↔ (length all ≡ count → AreOfATree all)) }
{
    if parts.len() + 1 != count {
        return Ok(true);
    }
    let mut all = Vec::new(alloc);
    for part in parts {
        all.push(part.share()?)?;
    }
    all.push(chunk.share()?)?;
    Ok(are_of_a_tree(&all))
}

fn are_of_a_tree(chunks: &[Shared<Chunk>]) -> bool
    ensures { IsTrue result ↔ AreOfATree chunks.now }
{
    Tree::check(chunks).is_none()
}

fn fits_plain(place: &Place) -> bool
    ensures { (plan : PlanData) → (IsTrue result ↔ Fits plan place.now Reply.Plain) }
{
    match place {
        Place::Filling { parts, .. } => parts.is_empty(),
        Place::Holding { .. }
        | Place::Putting { .. }
        | Place::Unpinning { .. }
        | Place::Dropping { .. }
        | Place::Ended => true,
        _ => false,
    }
}
