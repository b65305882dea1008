ghost use Rattle.std.specs.Prelude.{◌≡◌, ◌↔◌, None, IsTrue, IfOk};
ghost use Rattle.osb_recipe.specs.Plans.{IsSound};
ghost use Rattle.osb_job.specs.Jobs.{wants, asked, CanWant, taken, refused, IsTaken, Fits, IsOf, IsPlace};

use crate::conditions::{can_want, fits, is_of};
use crate::takes::taken;
use crate::wants::{refused, wanted};
use crate::{Action, Place, Reply};
use osb_base::Steps;
use osb_recipe::Plan;
use osb_tree::{NoMemory, WorkerNo};
use std::alloc::Global;
use std::marker::Model;
use std::mem::replace;
use std::sync::ledger::Ledger;

/// The job of a worker, from its first claim to its end: the work that it does by itself, between its turns at the shared
/// state. Contracts see its worker and what it is at.
#[derive(Drop)]
pub struct Job {
    worker: WorkerNo,
    place: Place,
}

impl Model for Job {
    ghost use Rattle.osb_job.specs.Jobs.{JobState, IsPlace};

    ghost Value = { JobState };

    ghost view = { λ j. record { worker = j.worker; place = j.place } };

    ghost invariant = { λ j. IsPlace j.place };
}

impl Job {
    pub fn new(worker: WorkerNo) -> Self
        ensures worker { result.worker ≡ worker }
        ensures outside { result.place ≡ Place.Outside }
    {
        Job {
            worker,
            place: Place::Outside,
        }
    }

    pub fn worker(&self) -> WorkerNo
        ensures worker { result ≡ self.now.worker }
        ensures place { IsPlace self.now.place }
    {
        self.worker
    }

    /// Whether it has taken the reply to what it handed out: the test of the condition of `want`.
    pub fn can_want(&self) -> bool
        ensures can { IsTrue result ↔ CanWant self.now.place }
    {
        can_want(&self.place)
    }

    /// Whether the plan is that of its task: a test of a condition of `take`.
    pub fn is_of(&self, plan: &Plan) -> bool
        ensures of_plan { IsTrue result ↔ IsOf plan.now self.now.place }
    {
        is_of(plan, &self.place)
    }

    /// Whether the reply fits: a test of a condition of `take`. At the last chunk of an entry it makes a list of them all,
    /// which takes memory.
    pub fn fits(&self, alloc: Global, plan: &Plan, reply: &Reply) -> Result<bool, NoMemory>
        ensures fits { IfOk result (λ fits. IsTrue fits ↔ Fits plan.now self.now.place reply.now) }
    {
        fits(alloc, plan, &self.place, reply)
    }

    /// The next action; none where the worker has ended or left. The chunk that is to be staged, and the outcome of a
    /// task, go out with their action: the job is asked again when it has taken the reply.
    pub fn want(&mut self) -> Option<Action>
        requires replied { CanWant self.old.place }
        ensures action { result ≡ wants self.old.place }
        ensures none { (result ≡ None) ↔ (self.old.place ≡ Place.Gone) }
        ensures worker { self.new.worker ≡ self.old.worker }
        ensures place { self.new.place ≡ asked self.old.place }
    {
        let (action, place) = wanted(replace(&mut self.place, Place::Gone));
        self.place = place;
        action
    }

    /// Takes the reply to the action that it wanted, and does the work behind it. Where memory is refused on the way, what
    /// the job has pinned or staged is given up next, and its task ends for want of memory. The plan is one and the same
    /// for the whole life of a job.
    pub fn take<L: Ledger>(
        &mut self,
        alloc: Global,
        plan: &Plan,
        reply: Reply,
        steps: &mut Steps<L>,
    )
        requires sound { IsSound plan.now }
        requires same { IsOf plan.now self.old.place }
        requires fits { Fits plan.now self.old.place reply }
        ensures taken { IsTaken (taken plan.now self.old.place reply) steps.old steps.new self.new.place }
        ensures worker { self.new.worker ≡ self.old.worker }
        ensures of_plan { IsOf plan.now self.new.place }
        ensures place { IsPlace self.new.place }
    {
        let place = replace(&mut self.place, Place::Gone);
        self.place = taken(alloc, plan, place, reply, steps);
    }

    /// Memory was refused to the action that it wanted, or to the work behind the reply.
    pub fn refuse(&mut self)
        ensures worker { self.new.worker ≡ self.old.worker }
        ensures place { self.new.place ≡ refused self.old.place }
    {
        self.place = refused(&self.place);
    }
}
