//! One worker: its turns at the turnstile, and its work between them.
ghost use Rattle.std.specs.Prelude.{◌≡◌, ◌<◌, [], true, false, Some};
ghost use Rattle.osb_recipe.specs.Plans.{IsSound};
ghost use Rattle.osb_job.specs.declared.places.Place.{Place as PlaceData};
ghost use Rattle.osb_job.specs.declared.places.Place.TheVariants.{Outside};
ghost use Rattle.osb_state.specs.States.{Allows, gives, after};
ghost use Rattle.osb_turn.specs.Seats.{IsSeatOf};
ghost use Rattle.osb_work.specs.Works.{is_ready_for, Begins, Works, HasAsked, HasEnded};

use crate::bells::Bell;
use osb_base::{Gate, Steps};
use osb_board::Claim;
use osb_job::{Action, Job, Reply};
use osb_machine::Shared;
use osb_recipe::Plan;
use osb_tree::WorkerNo;
use osb_turn::{Seat, Turnstile};
use std::alloc::Global;
use std::marker::Brand;
use std::sync::Wait;
use std::sync::ledger::{Blank, Ledger};

/// A worker from its first claim to its end.
pub(crate) fn work<R: Wait, G: Gate>(
    rt: &R,
    alloc: Global,
    plan: &Plan,
    turnstile: &Turnstile<Shared>,
    bell: &Bell,
    gate: &G,
    worker: WorkerNo,
    seat: &mut Seat<Shared>,
)
    requires sound { IsSound plan.now }
    requires begins { Begins plan.now turnstile.now.opening }
    requires own { IsSeatOf gives after is_ready_for Allows turnstile.now seat.old }
    requires number { seat.old.worker ≡ worker }
    requires fresh { (seat.old.seen ≡ []) × (seat.old.mine ≡ []) }
    ensures own { IsSeatOf gives after is_ready_for Allows turnstile.now seat.new }
    ensures number { seat.new.worker ≡ worker }
    ensures ended { HasEnded plan.now seat.new }
{
    work_by::<R, G, Brand>(
        rt,
        alloc,
        plan,
        turnstile,
        bell,
        gate,
        worker,
        seat,
        Blank::new(1),
    );
}

/// The same, with a count of the stages that are run.
fn work_by<R: Wait, G: Gate, L: Ledger>(
    rt: &R,
    alloc: Global,
    plan: &Plan,
    turnstile: &Turnstile<Shared>,
    bell: &Bell,
    gate: &G,
    worker: WorkerNo,
    seat: &mut Seat<Shared>,
    blank: Blank,
)
    requires name { blank.name ≡ L.name }
    requires parts { blank.parts ≡ L.parts }
    requires counts { 0 < blank.parts }
    requires sound { IsSound plan.now }
    requires begins { Begins plan.now turnstile.now.opening }
    requires own { IsSeatOf gives after is_ready_for Allows turnstile.now seat.old }
    requires number { seat.old.worker ≡ worker }
    requires fresh { (seat.old.seen ≡ []) × (seat.old.mine ≡ []) }
    ensures own { IsSeatOf gives after is_ready_for Allows turnstile.now seat.new }
    ensures number { seat.new.worker ≡ worker }
    ensures ended { HasEnded plan.now seat.new }
{
    let mut job = Job::new(worker);
    let mut steps = Steps::<L>::new(blank);
    for _ in rt.forever() {
        if !take_turn(
            rt, alloc, plan, turnstile, bell, gate, seat, &mut job, &mut steps,
        ) {
            return;
        }
    }
    unreachable!()
}

/// One turn of a worker and the work behind it: whether it goes on, and has neither ended nor left.
fn take_turn<R: Wait, G: Gate, L: Ledger>(
    rt: &R,
    alloc: Global,
    plan: &Plan,
    turnstile: &Turnstile<Shared>,
    bell: &Bell,
    gate: &G,
    seat: &mut Seat<Shared>,
    job: &mut Job,
    steps: &mut Steps<L>,
) -> bool
    requires sound { IsSound plan.now }
    requires begins { Begins plan.now turnstile.now.opening }
    requires own { IsSeatOf gives after is_ready_for Allows turnstile.now seat.old }
    requires works { Works plan.now turnstile.now seat.old job.old.place }
    ensures own { IsSeatOf gives after is_ready_for Allows turnstile.now seat.new }
    ensures number { seat.new.worker ≡ seat.old.worker }
    ensures works { result ≡ true → Works plan.now turnstile.now seat.new job.new.place }
    ensures ended { result ≡ false → HasEnded plan.now seat.new }
{
    match job.want() {
        None => false,
        Some(Action::Claim) => claim(rt, alloc, plan, turnstile, bell, gate, seat, job, steps),
        Some(action) => {
            act(rt, alloc, plan, turnstile, bell, seat, job, action, steps);
            true
        }
    }
}

/// Asks for a task, and passes the gate before its work. Where the claim has to wait the worker sleeps until some task has
/// ended; where memory is refused it leaves.
fn claim<R: Wait, G: Gate, L: Ledger>(
    rt: &R,
    alloc: Global,
    plan: &Plan,
    turnstile: &Turnstile<Shared>,
    bell: &Bell,
    gate: &G,
    seat: &mut Seat<Shared>,
    job: &mut Job,
    steps: &mut Steps<L>,
) -> bool
    requires sound { IsSound plan.now }
    requires begins { Begins plan.now turnstile.now.opening }
    requires own { IsSeatOf gives after is_ready_for Allows turnstile.now seat.old }
    requires outside { job.old.place ≡ Outside }
    requires works { Works plan.now turnstile.now seat.old Outside }
    ensures own { IsSeatOf gives after is_ready_for Allows turnstile.now seat.new }
    ensures number { seat.new.worker ≡ seat.old.worker }
    ensures works { result ≡ true → Works plan.now turnstile.now seat.new job.new.place }
    ensures ended { result ≡ false → HasEnded plan.now seat.new }
{
    let _recipes = plan.table.recipes();
    let heard = bell.rings(rt);
    match turnstile.ask(rt, alloc, seat, Action::Claim) {
        Ok(Some(reply)) => {
            pass(gate, job.worker(), &reply);
            job.take(alloc, plan, reply, steps);
            true
        }
        Ok(None) => {
            bell.wait_past(rt, heard);
            true
        }
        Err(_) => false,
    }
}

/// Passes the gate of the task that was claimed.
fn pass<G: Gate>(gate: &G, worker: WorkerNo, reply: &Reply) {
    if let Reply::Claimed(Claim::Task(task)) = reply {
        gate.pass(worker, *task);
    }
}

/// Plays what the job has asked for, and does the work behind the reply. Nothing is held meanwhile.
fn act<R: Wait, L: Ledger>(
    rt: &R,
    alloc: Global,
    plan: &Plan,
    turnstile: &Turnstile<Shared>,
    bell: &Bell,
    seat: &mut Seat<Shared>,
    job: &mut Job,
    action: Action,
    steps: &mut Steps<L>,
)
    requires sound { IsSound plan.now }
    requires begins { Begins plan.now turnstile.now.opening }
    requires own { IsSeatOf gives after is_ready_for Allows turnstile.now seat.old }
    requires asked { HasAsked plan.now turnstile.now seat.old action job.old.place }
    ensures own { IsSeatOf gives after is_ready_for Allows turnstile.now seat.new }
    ensures number { seat.new.worker ≡ seat.old.worker }
    ensures works { Works plan.now turnstile.now seat.new job.new.place }
{
    let _recipes = plan.table.recipes();
    let is_end = matches!(action, Action::Done(..));
    match turnstile.act(rt, alloc, seat, action) {
        Ok(reply) => job.take(alloc, plan, reply, steps),
        Err(_) => job.refuse(),
    }
    if is_end {
        bell.ring(rt);
    }
}
