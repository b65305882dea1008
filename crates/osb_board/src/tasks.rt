ghost use Rattle.std.specs.Prelude.{◌≡◌, ℕ};

use osb_base::{List, TaskNo, WorkerNo};

/// A task: the tasks that it waits for, and how far it is.
#[derive(Debug, Drop)]
pub struct Task<O> {
    pub deps: List<TaskNo>,
    pub state: TaskState<O>,
}

#[derive(Debug, Drop)]
pub enum TaskState<O> {
    Waiting,
    Running(WorkerNo),
    Done(O),
}

/// What a claim answers: a task to run, that none is ready, or that no task waits any more.
#[derive(Clone, Copy, Debug, PartialEq, Eq)]
pub enum Claim {
    Task(TaskNo),
    Idle,
    Over,
}
