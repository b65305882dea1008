//! The run of several workers.
ghost use Rattle.std.specs.Prelude.{◌≡◌, ◌<◌, ◌≤◌, ◌^◌, [], ℕ, sum_by, All, List, IfOk, length};
ghost use Rattle.osb_tree.specs.Trees.{Listing, tree_size};
ghost use Rattle.osb_tree.specs.Chunks.{AreOfATree};
ghost use Rattle.osb_cache.specs.Caches.{CanOpen};
ghost use Rattle.osb_cache.specs.declared.answers.Stored.{Stored};
ghost use Rattle.osb_recipe.specs.Plans.{IsSound};
ghost use Rattle.osb_state.specs.States.{Allows, gives, after};
ghost use Rattle.osb_state.specs.Schedules.{IsOpening, FromTrueOpening};
ghost use Rattle.osb_state.specs.Truth.{IsTrueOpening};
ghost use Rattle.osb_state.specs.KeptLogs.{IsKeptLog};
ghost use Rattle.osb_state.specs.Filling.{HasMemory, IsFilled, size_of_all};
ghost use Rattle.osb_machine.specs.Finishes.{IsFinished, AreMeantEnds};
ghost use Rattle.osb_turn.specs.Seats.{IsSeatOf, AreSeatsOf, HaveSeenNothing};
ghost use Rattle.osb_work.specs.Works.{is_ready_for, Begins, HasEnded, HaveEnded};

use crate::bells::Bell;
use crate::workers::work;
use osb_base::Gate;
use osb_job::Action;
use osb_machine::{Finished, Shared};
use osb_recipe::Plan;
use osb_tree::{NoMemory, WorkerNo};
use osb_turn::{Seat, Turnstile};
use std::alloc::{AllocError, Global};
use std::sync::Wait;
use std::thread::{Threads, for_each_mut};

/// The run of so many workers from a state as it was opened, to the end of them all. Each has a thread of its own; where
/// none can be made they run one after another. A worker takes turns at the shared state with the others, and works while
/// it has no turn. It passes the gate once for each task that it claims, before the task's work.
pub fn crew<R: Threads + Wait + Sync, G: Gate + Sync>(
    rt: &R,
    alloc: Global,
    plan: &Plan,
    shared: Shared,
    workers: u32,
    gate: &G,
) -> Result<Finished, NoMemory>
    requires sound { IsSound plan.now }
    requires some { 1 ≤ workers }
    requires few { workers ≤ 64 }
    requires opened { (opening : List (Stored Listing)) × (limit : ℕ) × IsOpening plan.now opening limit shared }
    ensures finished { IfOk result (λ finished. FromTrueOpening plan.now shared (λ opening limit. IsFinished plan.now opening limit workers finished)) }
    ensures kept { IfOk result (λ finished. FromTrueOpening plan.now shared (λ opening limit. IsKeptLog plan.now opening limit finished.log)) }
    ensures meant { IfOk result (λ finished. FromTrueOpening plan.now shared (λ opening limit. AreMeantEnds plan.now finished.outcomes)) }
    ensures true_entries { IfOk result (λ finished. FromTrueOpening plan.now shared (λ opening limit. IsTrueOpening plan.now finished.entries)) }
    ensures filled { IfOk result (λ finished. FromTrueOpening plan.now shared (λ opening limit. size_of_all plan.now opening ≤ limit → HasMemory finished.log → IsFilled plan.now opening limit finished.log)) }
    ensures can_open { IfOk result (λ finished. (limit : ℕ) → limit ≤ 2 ^ 62 → CanOpen tree_size limit finished.entries) }
    ensures within { IfOk result (λ finished. sum_by (λ stored. sum_by tree_size stored.chunks) finished.entries ≤ shared.cache.limit) }
    ensures known { IfOk result (λ finished. All (λ stored. stored.key.0 < length plan.now.table.recipes) finished.entries) }
    ensures trees { IfOk result (λ finished. All (λ stored. AreOfATree stored.chunks) finished.entries) }
{
    let _recipes = plan.table.recipes();
    let _ = shared.ready(WorkerNo(0), &Action::Claim);
    let (turnstile, mut seats) = Turnstile::open(alloc, shared, workers)?;
    work_all(rt, alloc, plan, &turnstile, gate, seats.as_mut_slice());
    match turnstile.close(seats) {
        Ok(shared) => shared.finish(alloc),
        Err(_) => Err(AllocError),
    }
}

/// All workers, each at its seat.
fn work_all<R: Threads + Wait + Sync, G: Gate + Sync>(
    rt: &R,
    alloc: Global,
    plan: &Plan,
    turnstile: &Turnstile<Shared>,
    gate: &G,
    seats: &mut [Seat<Shared>],
)
    requires sound { IsSound plan.now }
    requires begins { Begins plan.now turnstile.now.opening }
    requires seats { AreSeatsOf gives after is_ready_for Allows turnstile.now seats.old }
    requires few { length seats.old ≤ 64 }
    requires fresh { HaveSeenNothing seats.old }
    ensures seats { AreSeatsOf gives after is_ready_for Allows turnstile.now seats.new }
    ensures ended { HaveEnded plan.now seats.new }
{
    let bell = Bell::new();
    let bell = &bell;
    let count = seats.len().max(1);
    let at = |place: usize, seat: &mut Seat<Shared>|
        requires { IsSound plan.now × Begins plan.now turnstile.now.opening × IsSeatOf gives after is_ready_for Allows turnstile.now seat.now × (seat.now.worker.0 ≡ place) × (seat.now.seen ≡ []) × (seat.now.mine ≡ []) × (place < 64) }
        ensures { IsSeatOf gives after is_ready_for Allows turnstile.entry.now seat.exit.now × (seat.exit.now.worker ≡ seat.entry.now.worker) × HasEnded plan.entry.now seat.exit.now }
    {
        work(
            rt,
            alloc,
            plan,
            turnstile,
            bell,
            gate,
            WorkerNo(place as u32),
            seat,
        )
    };
    for_each_mut(rt, seats, count, &at);
}
