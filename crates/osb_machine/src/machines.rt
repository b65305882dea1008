//! The machine: shared state and the workers' jobs, and the run of a schedule.
ghost use Rattle.std.specs.Prelude.{◌≡◌, ◌<◌, ◌≤◌, ℕ, false, All, List, IfOk, length, replicate};
ghost use Rattle.osb_tree.specs.Trees.{Listing};
ghost use Rattle.osb_cache.specs.declared.answers.Stored.{Stored};
ghost use Rattle.osb_recipe.specs.Plans.{IsSound};
ghost use Rattle.osb_state.specs.Turns.{HasJobs};
ghost use Rattle.osb_recipe.specs.Tables.{IsTable};
ghost use Rattle.osb_state.specs.Openings.{opened_state};
ghost use Rattle.osb_state.specs.Schedules.{Runs, HaveNumbers, IsOpening, IsRunBy, FromTrueOpening, places_of};
ghost use Rattle.osb_state.specs.RunLogs.{LeadsTo};
ghost use Rattle.osb_state.specs.KeptLogs.{IsKeptLog};
ghost use Rattle.osb_state.specs.Filling.{IsAtRest, HasMemory, IsFilled, size_of_all};
ghost use Rattle.osb_machine.specs.Finishes.{HasMeantEnds};

use crate::Shared;
use crate::turns::turn;
use osb_base::Steps;
use osb_job::{Flag, Job, Place};
use osb_recipe::Plan;
use osb_tree::{List as Items, NoMemory, WorkerNo};
use std::alloc::Global;
use std::marker::Brand;
use std::sync::ledger::{Blank, Ledger};

/// Shared state and the jobs of workers, by number.
#[derive(Drop)]
pub struct Machine {
    pub shared: Shared,
    pub jobs: Items<Job>,
}

/// The run of a schedule from a state as it was opened, by so many workers. Memory may be refused where no flag says so.
pub fn run_schedule(
    alloc: Global,
    plan: &Plan,
    shared: Shared,
    workers: u32,
    schedule: &[(WorkerNo, Flag)],
) -> Result<Machine, NoMemory>
    requires sound { IsSound plan.now }
    requires some { 1 ≤ workers }
    requires few { workers ≤ 64 }
    requires within { All (λ turn. turn.0.0 < workers) schedule.now }
    requires opened { (opening : List (Stored Listing)) × (limit : ℕ) × IsOpening plan.now opening limit shared }
    ensures jobs { IfOk result (λ machine. HasJobs plan.now machine.shared (places_of machine.jobs)) }
    ensures run { IfOk result (λ machine. FromTrueOpening plan.now shared (λ opening limit. IsRunBy plan.now opening limit schedule.now machine.shared (places_of machine.jobs))) }
    ensures log { IfOk result (λ machine. FromTrueOpening plan.now shared (λ opening limit. LeadsTo plan.now workers (opened_state plan.now opening limit) (λ worker. false) machine.shared.log machine.shared)) }
    ensures kept { IfOk result (λ machine. FromTrueOpening plan.now shared (λ opening limit. IsKeptLog plan.now opening limit machine.shared.log)) }
    ensures meant { IfOk result (λ machine. FromTrueOpening plan.now shared (λ opening limit. HasMeantEnds plan.now machine.shared)) }
    ensures filled { IfOk result (λ machine. FromTrueOpening plan.now shared (λ opening limit. size_of_all plan.now opening ≤ limit → HasMemory machine.shared.log → IsAtRest machine.shared.log → IsFilled plan.now opening limit machine.shared.log)) }
{
    run_by::<Brand>(alloc, plan, shared, workers, schedule, Blank::new(1))
}

/// The same, with a count of the stages that are run.
fn run_by<L: Ledger>(
    alloc: Global,
    plan: &Plan,
    mut shared: Shared,
    workers: u32,
    schedule: &[(WorkerNo, Flag)],
    blank: Blank,
) -> Result<Machine, NoMemory>
    requires name { blank.name ≡ L.name }
    requires parts { blank.parts ≡ L.parts }
    requires counts { 0 < blank.parts }
    requires sound { IsSound plan.now }
    requires within { All (λ turn. turn.0.0 < workers) schedule.now }
    requires opened { (opening : List (Stored Listing)) × (limit : ℕ) × IsOpening plan.now opening limit shared }
    ensures jobs { IfOk result (λ machine. HasJobs plan.now machine.shared (places_of machine.jobs)) }
    ensures run { IfOk result (λ machine. FromTrueOpening plan.now shared (λ opening limit. IsRunBy plan.now opening limit schedule.now machine.shared (places_of machine.jobs))) }
    ensures table { IsTable plan.now.table }
{
    let _recipes = plan.table.recipes();
    let mut jobs = new_jobs(alloc, workers)?;
    let mut steps = Steps::<L>::new(blank);
    shared.state_is_valid();
    run_turns(alloc, plan, &mut shared, &mut jobs, schedule, &mut steps);
    Ok(Machine {
        shared,
        jobs: Items::new(jobs),
    })
}

/// A job for each worker.
fn new_jobs(alloc: Global, workers: u32) -> Result<Vec<Job>, NoMemory>
    ensures numbers { IfOk result (λ jobs. HaveNumbers jobs.items) }
    ensures places { IfOk result (λ jobs. places_of jobs.items ≡ replicate workers Place.Outside) }
    ensures length { IfOk result (λ jobs. length jobs.items ≡ workers) }
{
    let mut jobs = Vec::new(alloc);
    for number in 0..workers {
        jobs.push(Job::new(WorkerNo(number)))?;
    }
    Ok(jobs)
}

/// The turns of a schedule, one after the other.
fn run_turns<L: Ledger>(
    alloc: Global,
    plan: &Plan,
    shared: &mut Shared,
    jobs: &mut [Job],
    schedule: &[(WorkerNo, Flag)],
    steps: &mut Steps<L>,
)
    requires sound { IsSound plan.now }
    requires within { All (λ turn. turn.0.0 < length jobs.old) schedule.now }
    requires numbers { HaveNumbers jobs.old }
    requires jobs { HasJobs plan.now shared.old (places_of jobs.old) }
    ensures jobs { HasJobs plan.now shared.new (places_of jobs.new) }
    ensures runs { Runs plan.now shared.new (places_of jobs.new) shared.old (places_of jobs.old) schedule.now }
{
    let _recipes = plan.table.recipes();
    for next in schedule {
        let (worker, flag) = *next;
        turn(
            alloc,
            plan,
            shared,
            &mut jobs[worker.0 as usize],
            flag,
            steps,
        );
    }
}
