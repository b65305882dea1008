//! A plan of builds, run by one worker.
ghost use Rattle.std.specs.Prelude.{◌≡◌, ◌^◌, ◌≤◌, IfOk};
ghost use Rattle.std.specs.List.{All};
ghost use Rattle.osb_plan.specs.Bridge.{IsReady, BridgesTo};
ghost use Rattle.osb_plan.specs.Planning.{planned};
ghost use Rattle.osb_machine.specs.Finishes.{AreMeantEnds};
ghost use Rattle.osb_store.specs.Rules.{IsStore};
ghost use Rattle.osb_builder.specs.Stores.{IsTrueStore};
ghost use Rattle.osb_builder.specs.Building.{IsMachineRun};

use osb_base::{NoMemory, Steps};
use osb_machine::{Finished, Shared, serial};
use osb_plan::{Build, plan};
use osb_recipe::Plan;
use osb_store::Store;
use std::alloc::Global;
use std::sync::ledger::Ledger;

/// The plan of some builds, and what its run left.
#[derive(Drop)]
pub struct BuiltPlan {
    pub plan: Plan,
    pub finished: Finished,
}

/// Plans builds over a store, and runs the plan by one worker; trees of the store are taken from it, and those that are
/// marked are added while the limit, in bytes, allows. The ticks are the stages that are run.
pub fn build_serial<L: Ledger>(
    alloc: Global,
    builds: &[Build],
    store: Store,
    limit: u64,
    steps: &mut Steps<L>,
) -> Result<BuiltPlan, NoMemory>
    requires ready { All IsReady builds.now }
    requires store { IsStore store }
    requires limit { limit ≤ 2 ^ 62 }
    ensures plan { IfOk result (λ built. built.plan ≡ planned store.table builds.now) }
    ensures bridge { IfOk result (λ built. BridgesTo builds.now built.plan) }
    ensures meant { IfOk result (λ built. IsTrueStore store → AreMeantEnds built.plan built.finished.outcomes) }
    ensures run { IfOk result (λ built. IsTrueStore store → IsMachineRun built.plan store limit 1 steps.old steps.new built.finished) }
{
    let _recipes = store.table.recipes();
    let plan = plan(alloc, builds, store.table)?;
    let entries = store.entries.into_vec();
    let shared = Shared::open(alloc, &plan, entries, limit)?;
    let finished = serial(alloc, &plan, shared, steps)?;
    Ok(BuiltPlan { plan, finished })
}
