//! What workers have staged, in numbers.
ghost use Rattle.std.specs.Prelude.{◌≡◌, ◌-◌, ◌<◌, ◌≤◌, true, Some, find, position};
ghost use Rattle.std.specs.List.{list_any};
ghost use Rattle.osb_cache.specs.Edits.{remove_first, update_first, IsFirst};
ghost use Rattle.osb_machine.specs.Owed.{is_staging, one_put};

use osb_tree::{Key, WorkerNo};

/// A worker's staged entry of a key: how many chunks it is to have, and how many of them are left to put.
#[derive(Clone, Copy, Debug, PartialEq, Eq)]
pub struct Staging {
    pub worker: WorkerNo,
    pub key: Key,
    pub count: usize,
    pub left: usize,
}

impl Staging {
    fn is_of(&self, worker: WorkerNo, key: Key) -> bool
        ensures { result ≡ is_staging worker.0 key.0 self.now }
    {
        self.worker.0 == worker.0 && self.key.0 == key.0
    }
}

fn found_place(stagings: &[Staging], worker: WorkerNo, key: Key) -> Option<usize>
    ensures { result ≡ position (is_staging worker.0 key.0) stagings.now }
{
    stagings
        .iter()
        .position(|staging| staging.is_of(worker, key))
}

fn place_of(stagings: &[Staging], worker: WorkerNo, key: Key) -> usize
    requires { list_any (is_staging worker.0 key.0) stagings.now ≡ true }
    ensures { IsFirst (is_staging worker.0 key.0) stagings.now result }
{
    match found_place(stagings, worker, key) {
        Some(place) => place,
        None => unreachable!(),
    }
}

/// Counts one more chunk, and gives how many there were.
pub(crate) fn count_put(stagings: &mut Vec<Staging>, worker: WorkerNo, key: Key) -> usize
    requires stands { list_any (is_staging worker.0 key.0) stagings.old.items ≡ true }
    requires left { (staging : Staging) → find (is_staging worker.0 key.0) stagings.old.items ≡ Some staging → (0 < staging.left) × (staging.left ≤ staging.count) }
    ensures put { (staging : Staging) → find (is_staging worker.0 key.0) stagings.old.items ≡ Some staging → result ≡ staging.count - staging.left }
    ensures items { stagings.new.items ≡ update_first (is_staging worker.0 key.0) one_put stagings.old.items }
{
    let place = place_of(stagings, worker, key);
    let staging = stagings[place];
    stagings[place] = Staging {
        left: staging.left - 1,
        ..staging
    };
    staging.count - staging.left
}

/// Takes out what is staged.
pub(crate) fn take_staging(stagings: &mut Vec<Staging>, worker: WorkerNo, key: Key) -> Staging
    requires stands { list_any (is_staging worker.0 key.0) stagings.old.items ≡ true }
    ensures taken { find (is_staging worker.0 key.0) stagings.old.items ≡ Some result }
    ensures items { stagings.new.items ≡ remove_first (is_staging worker.0 key.0) stagings.old.items }
{
    let place = place_of(stagings, worker, key);
    stagings.remove(place)
}
