//! The builds of a run: planned, run by one worker, and what comes of each.
ghost use Rattle.std.specs.Prelude.{◌≡◌, ◌^◌, ◌≤◌, IfOk};
ghost use Rattle.std.specs.List.{AllZip};
ghost use Rattle.osb_top.specs.Builds.{IsCameAt};
ghost use Rattle.osb_top.specs.Steps.{IsBuilt};

use crate::prepares::{Builds, split};
use crate::starts::LoadedStore;
use osb_base::{List, NoMemory, Steps};
use osb_builder::{BuiltPlan, build_serial};
use osb_machine::Finished;
use osb_plan::{Build, ReadyBuild};
use osb_ready::{Export, Unbuilt, exports_of_tasks};
use osb_recipe::{Outcome, Plan};
use osb_words::Settings;
use std::alloc::Global;
use std::sync::ledger::Ledger;

/// What a run has before its exports; for each manifest its exports, or why there are none.
#[derive(Drop)]
pub(crate) struct Built {
    pub(crate) plan: Plan,
    pub(crate) finished: Finished,
    pub(crate) came: Vec<Result<List<Export>, Unbuilt>>,
}

/// Plans the builds that are ready over a store, and runs the plan by one worker.
pub(crate) fn build_all<L: Ledger>(
    alloc: Global,
    settings: &Settings,
    readies: Vec<Result<ReadyBuild, Unbuilt>>,
    store: LoadedStore,
    steps: &mut Steps<L>,
) -> Result<Built, NoMemory>
    requires limit { settings.now.limit ≤ 2 ^ 62 }
    ensures built { IfOk result (λ built. IsBuilt settings.now store (record { before = steps.old; now = steps.new }) readies.items built.plan built.finished built.came.items) }
{
    let Builds { planned, places } = split(alloc, readies)?;
    let store = store.into_store();
    let BuiltPlan { plan, finished } = build_serial(alloc, &planned, store, settings.limit, steps)?;
    let came = came_of(
        alloc,
        settings,
        places,
        &planned,
        &plan,
        finished.outcomes.as_slice(),
    )?;
    Ok(Built {
        plan,
        finished,
        came,
    })
}

/// What comes of each manifest's build, by the outcomes of the plan's tasks.
fn came_of(
    alloc: Global,
    settings: &Settings,
    places: Vec<Result<usize, Unbuilt>>,
    planned: &[Build],
    plan: &Plan,
    outcomes: &[Outcome],
) -> Result<Vec<Result<List<Export>, Unbuilt>>, NoMemory>
    ensures came { IfOk result (λ all. AllZip (IsCameAt settings.now.exports planned.now plan.now outcomes.now) places.items all.items) }
{
    let mut all = Vec::new(alloc);
    for place in places {
        all.push(came_at(alloc, settings, place, planned, plan, outcomes))?;
    }
    Ok(all)
}

fn came_at(
    alloc: Global,
    settings: &Settings,
    place: Result<usize, Unbuilt>,
    planned: &[Build],
    plan: &Plan,
    outcomes: &[Outcome],
) -> Result<List<Export>, Unbuilt>
    ensures came { IsCameAt settings.now.exports planned.now plan.now outcomes.now place result }
{
    let place = match place {
        Ok(place) => place,
        Err(unbuilt) => return Err(unbuilt),
    };
    let Some(build) = planned.get(place) else {
        return Err(Unbuilt::NoMemory);
    };
    let Some(numbers) = plan.builds.as_slice().get(place) else {
        return Err(Unbuilt::NoMemory);
    };
    exports_of_tasks(alloc, build, numbers, outcomes, settings.exports.as_slice())
}
