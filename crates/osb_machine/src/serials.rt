//! The run of one worker.
ghost use Rattle.std.specs.Prelude.{◌≡◌, ◌+◌, ◌<◌, ◌≤◌, ◌^◌, ◌∷◌, [], ℕ, sum_by, All, List, IfOk, length};
ghost use Rattle.osb_tree.specs.Trees.{Listing, tree_size};
ghost use Rattle.osb_tree.specs.Chunks.{AreOfATree};
ghost use Rattle.osb_cache.specs.Caches.{CanOpen};
ghost use Rattle.osb_cache.specs.declared.answers.Stored.{Stored};
ghost use Rattle.osb_recipe.specs.Plans.{IsSound};
ghost use Rattle.osb_job.specs.Scripts.{idle};
ghost use Rattle.osb_state.specs.Schedules.{IsOpening, FromTrueOpening};
ghost use Rattle.osb_state.specs.Truth.{IsTrueOpening};
ghost use Rattle.osb_state.specs.Turns.{HasJobs};
ghost use Rattle.osb_state.specs.KeptLogs.{IsKeptLog};
ghost use Rattle.osb_state.specs.Filling.{HasMemory, IsFilled, size_of_all};
ghost use Rattle.osb_state.specs.Spent.{stages_run};
ghost use Rattle.osb_state.specs.Serial.{Goes, HasStopped};
ghost use Rattle.osb_machine.specs.Finishes.{IsFinished, AreMeantEnds};

use crate::turns::turn;
use crate::{Finished, Shared};
use osb_base::Steps;
use osb_job::{Flag, Job, Place};
use osb_recipe::Plan;
use osb_tree::{NoMemory, WorkerNo};
use std::alloc::{AllocError, Global};
use std::sync::ledger::Ledger;

/// The run of one worker from a state as it was opened, to its end. The ticks are the stages that are run.
pub fn serial<L: Ledger>(
    alloc: Global,
    plan: &Plan,
    mut shared: Shared,
    steps: &mut Steps<L>,
) -> Result<Finished, NoMemory>
    requires sound { IsSound plan.now }
    requires opened { (opening : List (Stored Listing)) × (limit : ℕ) × IsOpening plan.now opening limit shared }
    ensures finished { IfOk result (λ finished. FromTrueOpening plan.now shared (λ opening limit. IsFinished plan.now opening limit 1 finished)) }
    ensures kept { IfOk result (λ finished. FromTrueOpening plan.now shared (λ opening limit. IsKeptLog plan.now opening limit finished.log)) }
    ensures meant { IfOk result (λ finished. FromTrueOpening plan.now shared (λ opening limit. AreMeantEnds plan.now finished.outcomes)) }
    ensures true_entries { IfOk result (λ finished. FromTrueOpening plan.now shared (λ opening limit. IsTrueOpening plan.now finished.entries)) }
    ensures filled { IfOk result (λ finished. FromTrueOpening plan.now shared (λ opening limit. size_of_all plan.now opening ≤ limit → HasMemory finished.log → IsFilled plan.now opening limit finished.log)) }
    ensures steps { IfOk result (λ finished. FromTrueOpening plan.now shared (λ opening limit. steps.new ≤ steps.old + stages_run plan.now idle finished.log)) }
    ensures can_open { IfOk result (λ finished. (limit : ℕ) → limit ≤ 2 ^ 62 → CanOpen tree_size limit finished.entries) }
    ensures within { IfOk result (λ finished. sum_by (λ stored. sum_by tree_size stored.chunks) finished.entries ≤ shared.cache.limit) }
    ensures known { IfOk result (λ finished. All (λ stored. stored.key.0 < length plan.now.table.recipes) finished.entries) }
    ensures trees { IfOk result (λ finished. All (λ stored. AreOfATree stored.chunks) finished.entries) }
{
    let _recipes = plan.table.recipes();
    let mut job = Job::new(WorkerNo(0));
    shared.state_is_valid();
    go(alloc, plan, &mut shared, &mut job, steps)?;
    shared.finish(alloc)
}

/// The turns of a worker, until it stops.
fn go<L: Ledger>(
    alloc: Global,
    plan: &Plan,
    shared: &mut Shared,
    job: &mut Job,
    steps: &mut Steps<L>,
) -> Result<(), NoMemory>
    requires sound { IsSound plan.now }
    requires first { job.old.worker.0 ≡ 0 }
    requires outside { job.old.place ≡ Place.Outside }
    requires jobs { HasJobs plan.now shared.old (job.old.place ∷ []) }
    ensures jobs { HasJobs plan.now shared.new (job.new.place ∷ []) }
    ensures limit { shared.new.cache.limit ≡ shared.old.cache.limit }
    ensures goes { (spent : ℕ) × (steps.new ≤ steps.old + spent) × Goes plan.now shared.old shared.new job.new.place spent }
    ensures stopped { IfOk result (λ _. HasStopped shared.new job.new.place) }
{
    let _recipes = plan.table.recipes();
    for _ in 0..u64::MAX {
        if !turn(alloc, plan, shared, job, Flag::Fine, steps) {
            return Ok(());
        }
    }
    Err(AllocError)
}
