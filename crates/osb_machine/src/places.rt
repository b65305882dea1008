//! Places of the log.
ghost use Rattle.std.specs.Prelude.{◌≡◌, ◌+◌, ◌<◌, ◌≤◌, ◌++◌, ◌∷◌, [], length, vec_len, vec_capacity, OnOk};

use osb_job::{Entry, Event};
use osb_tree::{NoMemory, WorkerNo};
use std::alloc::AllocError;

/// Room for so many entries beside those that are owed.
pub(crate) fn spare(log: &mut Vec<Entry>, due: usize, more: usize) -> Result<(), NoMemory>
    ensures items { log.new.items ≡ log.old.items }
    ensures capacity { vec_capacity log.old ≤ vec_capacity log.new }
    ensures ok { OnOk result (length log.old.items + due + more ≤ vec_capacity log.new) }
{
    let Some(all) = due.checked_add(more) else {
        return Err(AllocError);
    };
    log.reserve(all)
}

/// Writes an entry into a place that is free.
pub(crate) fn note(log: &mut Vec<Entry>, worker: WorkerNo, event: Event)
    requires { vec_len log.old < vec_capacity log.old }
    ensures items { log.new.items ≡ log.old.items ++ record { worker = worker; event = event } ∷ [] }
    ensures capacity { vec_capacity log.new ≡ vec_capacity log.old }
{
    log.push_reserved(Entry { worker, event });
}
