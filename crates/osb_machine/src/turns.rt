//! The turn of a worker with its job.
ghost use Rattle.std.specs.Prelude.{◌≡◌, ◌↔◌, ◌+◌, ◌≤◌, IsTrue, Some, true, false};
ghost use Rattle.osb_recipe.specs.Plans.{IsSound};
ghost use Rattle.osb_job.specs.Jobs.{asked, taken, Fits, IsOf};
ghost use Rattle.osb_state.specs.States.{Allows, gives, is_refusable};
ghost use Rattle.osb_state.specs.Replies.{IsOfPlan};
ghost use Rattle.osb_state.specs.Schedules.{Acted, Turned};
ghost use Rattle.osb_state.specs.Turns.{HasJob};
ghost use Rattle.osb_state.specs.Serial.{HasStopped, RunsStages};
ghost use Rattle.osb_job.specs.declared.places.Place.{Place as PlaceData};

use crate::Shared;
use osb_base::Steps;
use osb_job::{Action, Flag, Job};
use osb_recipe::Plan;
use std::alloc::Global;
use std::sync::ledger::Ledger;

/// One turn of a worker with its job: whether it went on, and has neither ended nor left nor has to wait. Memory may be
/// refused where no flag says so.
pub(crate) fn turn<L: Ledger>(
    alloc: Global,
    plan: &Plan,
    shared: &mut Shared,
    job: &mut Job,
    flag: Flag,
    steps: &mut Steps<L>,
) -> bool
    requires sound { IsSound plan.now }
    requires of_plan { IsOfPlan plan.now shared.old }
    requires job { HasJob plan.now shared.old job.old.worker.0 job.old.place }
    ensures turned { Turned plan.now job.old.worker flag shared.old shared.new job.old.place job.new.place }
    ensures worker { job.new.worker ≡ job.old.worker }
    ensures stages { RunsStages plan.now job.old.worker shared.old shared.new job.old.place steps.old steps.new }
    ensures stopped { result ≡ false → HasStopped shared.new job.new.place }
{
    let worker = job.worker();
    let _recipes = plan.table.recipes();
    let Some(action) = job.want() else {
        return false;
    };
    let ready = shared.ready(worker, &action);
    if ready {
        act(alloc, plan, shared, job, flag, action, steps);
    }
    ready
}

/// A job that has asked acts: its action is refused, or played and its reply taken.
fn act<L: Ledger>(
    alloc: Global,
    plan: &Plan,
    shared: &mut Shared,
    job: &mut Job,
    flag: Flag,
    action: Action,
    steps: &mut Steps<L>,
)
    requires sound { IsSound plan.now }
    requires same { IsOf plan.now job.old.place }
    requires allowed { Allows shared.old job.old.worker action }
    requires fits { Fits plan.now job.old.place (gives shared.old job.old.worker action) }
    ensures acted { (place : PlaceData) → asked place ≡ job.old.place → Acted plan.now job.old.worker flag shared.old shared.new place job.new.place action }
    ensures worker { job.new.worker ≡ job.old.worker }
    ensures none { shared.new.log ≡ shared.old.log → steps.new ≡ steps.old }
    ensures most { steps.new ≤ steps.old + (taken plan.now job.old.place (gives shared.old job.old.worker action)).steps }
{
    if flag == Flag::ActRefused && is_refusable(&action) {
        job.refuse();
        return;
    }
    let worker = job.worker();
    match shared.play(alloc, worker, action) {
        Ok(reply) => {
            job.take(alloc, plan, reply, steps);
            if flag == Flag::WorkRefused {
                job.refuse();
            }
        }
        Err(_) => job.refuse(),
    }
}

fn is_refusable(action: &Action) -> bool
    ensures { result ≡ is_refusable action.now }
{
    matches!(
        action,
        Action::Claim | Action::Fetch(_) | Action::Look(_) | Action::Read(..) | Action::Reserve(..)
    )
}
