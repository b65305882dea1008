ghost use Rattle.std.specs.Prelude.{◌≡◌, ◌≢◌, Bool, false, IfOk, IfErr, IsOk};
ghost use Rattle.osb_tree.specs.declared.numbers.WorkerNo.{WorkerNo};

use osb_base::{NoMemory, WorkerNo};
use std::alloc::Global;

/// A state that workers share, and what an action of a worker does to it. What a play answers and leaves follows from
/// the state, the worker and the action.
pub trait Played {
    type Action: Drop;

    type Reply;

    /// What of a state is a worker's own. No value of it is made.
    type Part;

    // What a play that answers Ok replies.
    ghost gives: { Self → WorkerNo → Self.Action → Self.Reply };
    // The state after it.
    ghost after: { Self → WorkerNo → Self.Action → Self };

    ghost is_ready: { Self → WorkerNo → Self.Action → Bool };
    // Whether a play of the action can be answered want of memory.
    ghost refusable: { Self.Action → Bool };
    // What is true of a state at the opening, and stays so.
    ghost valid: { Self → Type 0 };

    ghost part: { Self → WorkerNo → Self.Part };
    // The condition of an action.
    ghost allows: { Self → WorkerNo → Self.Action → Type 0 };

    fn ready(&self, worker: WorkerNo, action: &Self::Action) -> bool
        ensures { result ≡ is_ready self.now worker action.now };

    fn play(
        &mut self,
        alloc: Global,
        worker: WorkerNo,
        action: Self::Action,
    ) -> Result<Self::Reply, NoMemory>
        requires valid { valid self.old }
        requires allowed { allows self.old worker action }
        ensures gives { IfOk result (λ reply. reply ≡ gives self.old worker action) }
        ensures after { IfOk result (λ _. self.new ≡ after self.old worker action) }
        ensures err { IfErr result (λ _. self.new ≡ self.old) }
        ensures sure { refusable action ≡ false → IsOk result };

    // The condition follows from the worker's own part.
    ghost by_part: { (s t : Self) (worker : WorkerNo) (action : Self.Action) → valid s → valid t → part s worker ≡ part t worker → allows s worker action → allows t worker action };

    ghost valid_stays: { (s : Self) (worker : WorkerNo) (action : Self.Action) → valid s → allows s worker action → valid (after s worker action) };
    // A play leaves the own part of every other worker as it is.
    ghost part_stays: { (s : Self) (worker other : WorkerNo) (action : Self.Action) → valid s → allows s worker action → other ≢ worker → part (after s worker action) other ≡ part s other };
}
