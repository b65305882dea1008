//! What a job wants next, and where it goes when memory was refused.
ghost use Rattle.std.specs.Prelude.{◌≡◌, None, ◌↔◌};
ghost use Rattle.osb_job.specs.Jobs.{wants, asked, refused, CanWant, IsPlace};
ghost use Rattle.osb_job.specs.Turns.{KeepsAll};

use crate::places::{dropping, no_memory, unpinning};
use crate::{Action, Parts, Place, Setup};
use osb_tree::{Key, Tree};

/// The next action of a job, and what the job is at when it is out.
pub(crate) fn wanted(place: Place) -> (Option<Action>, Place)
    requires can { CanWant place }
    requires place { IsPlace place }
    ensures action { result.0 ≡ wants place }
    ensures none { (result.0 ≡ None) ↔ (place ≡ Place.Gone) }
    ensures asked { result.1 ≡ asked place }
    ensures place { IsPlace result.1 }
{
    match place {
        Place::Filling {
            setup,
            key,
            tree,
            run,
            parts,
        } => filled(setup, key, tree, run, parts),
        Place::Ending { task, outcome } => (Some(Action::Done(task, outcome)), Place::Ended),
        place => (plain_action(&place), place),
    }
}

/// The next chunk goes out to be staged, or all are.
fn filled(
    setup: Setup,
    key: Key,
    tree: Tree,
    run: usize,
    mut parts: Parts,
) -> (Option<Action>, Place)
    ensures action { result.0 ≡ wants (Place.Filling setup key tree run parts) }
    ensures asked { result.1 ≡ asked (Place.Filling setup key tree run parts) }
{
    match parts.next() {
        Some(chunk) => {
            let place = Place::Putting {
                setup,
                key,
                tree,
                run,
                parts,
            };
            (Some(Action::Put(key, chunk)), place)
        }
        None => {
            let place = Place::Filling {
                setup,
                key,
                tree,
                run,
                parts,
            };
            (Some(Action::Commit(key)), place)
        }
    }
}

/// The next action where all that the job has stays in it.
fn plain_action(place: &Place) -> Option<Action>
    requires { KeepsAll place.now }
    ensures { result ≡ wants place.now }
{
    match place {
        Place::Outside => Some(Action::Claim),
        Place::Gone => None,
        Place::Fetching { dep, .. } => Some(Action::Fetch(*dep)),
        Place::Looking { setup } => Some(Action::Look(setup.task)),
        Place::Reading { key, parts, .. } => Some(Action::Read(*key, parts.as_slice().len())),
        Place::Holding { key, .. } | Place::Unpinning { key, .. } => Some(Action::Unpin(*key)),
        Place::Reserving { key, tree, .. } => {
            Some(Action::Reserve(*key, tree.size(), tree.chunks()))
        }
        Place::Dropping { key, .. } => Some(Action::Drop(*key)),
        Place::Filling { .. } | Place::Putting { .. } | Place::Ending { .. } | Place::Ended => {
            unreachable!()
        }
    }
}

/// What a job is at when memory was refused.
pub(crate) fn refused(place: &Place) -> Place
    ensures refused { result ≡ refused place.now }
    ensures place { IsPlace result }
{
    match place {
        Place::Outside | Place::Gone => Place::Gone,
        Place::Fetching { task, .. } | Place::Ending { task, .. } => no_memory(*task),
        Place::Looking { setup } | Place::Reserving { setup, .. } => no_memory(setup.task),
        Place::Reading { setup, key, .. } | Place::Holding { setup, key, .. } => {
            unpinning(setup.task, *key)
        }
        Place::Filling { setup, key, .. } | Place::Putting { setup, key, .. } => {
            dropping(setup.task, *key)
        }
        Place::Unpinning { task, key } => unpinning(*task, *key),
        Place::Dropping { task, key } => dropping(*task, *key),
        Place::Ended => Place::Ended,
    }
}
