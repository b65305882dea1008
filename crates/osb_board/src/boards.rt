ghost use Rattle.std.specs.Prelude.{◌≡◌, ◌↔◌, ℕ, true, false, Some, All, IfOk, IsTrue};
ghost use Rattle.osb_board.specs.Boards.{is_waiting, is_run_by, is_done, state_at, state_count, outcome_at, claim_of, is_idle, after_claim, after_done, new_board, outcomes, AreLower, IsHeldUp};

use crate::places::{
    claim_least, find_claim, is_done_at, is_run_by_at, outcome_ref, outcomes_of, runs_any,
    set_state, waiting_tasks,
};
use crate::{Claim, Task, TaskState};
use osb_base::{List, NoMemory, Share, TaskNo, WorkerNo};
use std::alloc::Global;
use std::marker::Model;

/// The tasks of a plan, which contracts see as the list of them.
#[derive(Drop)]
pub struct Board<O> {
    tasks: Vec<Task<O>>,
}

impl<O> Model for Board<O> {
    ghost use Rattle.std.specs.Prelude.{List as Items};
    ghost use Rattle.osb_board.specs.declared.tasks.Task.{Task as TaskData};

    ghost Value = { Items (TaskData O) };

    ghost use Rattle.osb_board.specs.Boards.{IsBoard};

    ghost view = { λ b. b.tasks.items };

    ghost invariant = { λ b. IsBoard b.tasks.items };
}

impl<O: Share + Drop> Board<O> {
    pub fn new(alloc: Global, deps: &[List<TaskNo>]) -> Result<Self, NoMemory>
        requires lower { AreLower deps.now }
        ensures made { IfOk result (λ board. board ≡ new_board deps.now) }
    {
        Ok(Board {
            tasks: waiting_tasks(alloc, deps)?,
        })
    }

    /// Whether the worker runs no task: the test of the condition of `claim`.
    pub fn is_free(&self, worker: WorkerNo) -> bool
        ensures free { IsTrue result ↔ (state_count (is_run_by worker.0) self.now ≡ 0) }
    {
        !runs_any(&self.tasks, worker)
    }

    /// Whether the worker runs the task: the test of the condition of `done`.
    pub fn runs(&self, worker: WorkerNo, task: TaskNo) -> bool
        ensures runs { result ≡ state_at (is_run_by worker.0) self.now task.0 }
    {
        is_run_by_at(&self.tasks, worker, task)
    }

    /// Whether the task is done: the test of the condition of `fetch`.
    pub fn is_done(&self, task: TaskNo) -> bool
        ensures done { result ≡ state_at is_done self.now task.0 }
    {
        is_done_at(&self.tasks, task)
    }

    /// The least task that is ready, which the worker then runs.
    pub fn claim(&mut self, worker: WorkerNo) -> Claim
        requires free { state_count (is_run_by worker.0) self.old ≡ 0 }
        ensures answer { result ≡ claim_of self.old }
        ensures after { self.new ≡ after_claim self.old worker }
        ensures over { (result ≡ Claim.Over) ↔ All (λ task. is_waiting task.state ≡ false) self.old }
        ensures idle { result ≡ Claim.Idle → IsHeldUp worker.0 self.old }
    {
        claim_least(&mut self.tasks, worker)
    }

    /// One more owner of the outcome of a task that is done.
    pub fn fetch(&self, dep: TaskNo) -> Result<O, NoMemory>
        requires done { state_at is_done self.now dep.0 ≡ true }
        ensures outcome { IfOk result (λ outcome. outcome_at self.now dep.0 ≡ Some outcome) }
    {
        match outcome_ref(&self.tasks, dep) {
            Some(outcome) => outcome.share(),
            None => unreachable!(),
        }
    }

    pub fn done(&mut self, worker: WorkerNo, task: TaskNo, outcome: O)
        requires runs { state_at (is_run_by worker.0) self.old task.0 ≡ true }
        ensures after { self.new ≡ after_done self.old worker task outcome }
    {
        set_state(&mut self.tasks, task, TaskState::Done(outcome));
    }

    /// Whether some task waits and none is ready, so that a worker without a task has to wait for another.
    pub fn is_idle(&self) -> bool
        ensures idle { result ≡ is_idle self.now }
    {
        matches!(find_claim(&self.tasks), Claim::Idle)
    }

    /// The outcomes by task, `None` for a task that is not done.
    pub fn into_outcomes(self, alloc: Global) -> Result<List<Option<O>>, NoMemory>
        ensures outcomes { IfOk result (λ made. made ≡ outcomes self) }
    {
        let Board { tasks } = self;
        Ok(List::new(outcomes_of(alloc, tasks)?))
    }
}
