//! Reads and changes of a board's tasks by their places.
ghost use Rattle.std.specs.Prelude.{◌≡◌, ◌<◌, true, vec_len, option_copied, IfOk};
ghost use Rattle.osb_board.specs.Boards.{is_waiting, is_run_by, is_done, outcome_of, state_at, has_state, has_done_deps, claim_of, with_state, after_claim, new_board, outcome_at, outcomes};

use crate::{Claim, Task, TaskState};
use osb_base::{List, NoMemory, TaskNo, WorkerNo};
use std::alloc::Global;

fn is_waiting<O>(state: &TaskState<O>) -> bool
    ensures { result ≡ is_waiting state.now }
{
    matches!(state, TaskState::Waiting)
}

fn is_done<O>(state: &TaskState<O>) -> bool
    ensures { result ≡ is_done state.now }
{
    matches!(state, TaskState::Done(_))
}

pub(crate) fn is_done_at<O>(tasks: &[Task<O>], task: TaskNo) -> bool
    ensures { result ≡ state_at is_done tasks.now task.0 }
{
    match tasks.get(task.0 as usize) {
        Some(task) => is_done(&task.state),
        None => false,
    }
}

fn is_run_by<O>(state: &TaskState<O>, worker: WorkerNo) -> bool
    ensures { result ≡ is_run_by worker.0 state.now }
{
    match state {
        TaskState::Running(runner) => runner.0 == worker.0,
        TaskState::Waiting | TaskState::Done(_) => false,
    }
}

pub(crate) fn is_run_by_at<O>(tasks: &[Task<O>], worker: WorkerNo, task: TaskNo) -> bool
    ensures { result ≡ state_at (is_run_by worker.0) tasks.now task.0 }
{
    match tasks.get(task.0 as usize) {
        Some(task) => is_run_by(&task.state, worker),
        None => false,
    }
}

pub(crate) fn runs_any<O>(tasks: &[Task<O>], worker: WorkerNo) -> bool
    ensures { result ≡ has_state (is_run_by worker.0) tasks.now }
{
    tasks.iter().any(|task| is_run_by(&task.state, worker))
}

fn has_done_deps<O>(tasks: &[Task<O>], task: &Task<O>) -> bool
    ensures { result ≡ has_done_deps tasks.now task.now }
{
    task.deps
        .as_slice()
        .iter()
        .all(|dep| is_done_at(tasks, *dep))
}

/// The answer to a claim, in one pass over the tasks and their dependencies.
pub(crate) fn find_claim<O>(tasks: &[Task<O>]) -> Claim
    ensures { result ≡ claim_of tasks.now }
{
    let mut claim = Claim::Over;
    for (i, task) in tasks.iter().enumerate() {
        if is_waiting(&task.state) {
            if has_done_deps(tasks, task) {
                return Claim::Task(TaskNo(i as u64));
            }
            claim = Claim::Idle;
        }
    }
    claim
}

#[tactic(auto, using(crate::proofs::States::state_written))]
pub(crate) fn set_state<O: Drop>(tasks: &mut Vec<Task<O>>, task: TaskNo, state: TaskState<O>)
    requires { task.0 < vec_len tasks.old }
    ensures { tasks.new.items ≡ with_state task.0 state tasks.old.items }
{
    tasks[task.0 as usize].state = state;
}

/// Makes the least task that is ready run by the worker, where there is one.
pub(crate) fn claim_least<O: Drop>(tasks: &mut Vec<Task<O>>, worker: WorkerNo) -> Claim
    ensures answer { result ≡ claim_of tasks.old.items }
    ensures after { tasks.new.items ≡ after_claim tasks.old.items worker }
{
    let claim = find_claim(tasks);
    if let Claim::Task(task) = claim {
        set_state(tasks, task, TaskState::Running(worker));
    }
    claim
}

pub(crate) fn outcome_ref<O>(tasks: &[Task<O>], task: TaskNo) -> Option<&O>
    ensures { option_copied result ≡ outcome_at tasks.now task.0 }
{
    let held = tasks.get(task.0 as usize)?;
    match &held.state {
        TaskState::Done(outcome) => Some(outcome),
        TaskState::Waiting | TaskState::Running(_) => None,
    }
}

pub(crate) fn waiting_tasks<O: Drop>(
    alloc: Global,
    deps: &[List<TaskNo>],
) -> Result<Vec<Task<O>>, NoMemory>
    ensures { IfOk result (λ tasks. tasks.items ≡ new_board deps.now) }
{
    let mut tasks = Vec::with_capacity(alloc, deps.len())?;
    for list in deps {
        tasks.push(Task {
            deps: List::new(Vec::from_slice(alloc, list.as_slice())?),
            state: TaskState::Waiting,
        })?;
    }
    Ok(tasks)
}

fn into_outcome<O>(task: Task<O>) -> Option<O>
    ensures { result ≡ outcome_of task.state }
{
    let Task { deps: _, state } = task;
    match state {
        TaskState::Done(outcome) => Some(outcome),
        TaskState::Waiting | TaskState::Running(_) => None,
    }
}

pub(crate) fn outcomes_of<O: Drop>(
    alloc: Global,
    tasks: Vec<Task<O>>,
) -> Result<Vec<Option<O>>, NoMemory>
    ensures { IfOk result (λ made. made.items ≡ outcomes tasks.items) }
{
    tasks.into_iter().map(into_outcome).collect(alloc)
}
