use crate::WorkerNo;
use osb_tree::TaskNo;

/// What a worker passes once before the work of a task. It changes nothing that a clause speaks of.
pub trait Gate {
    fn pass(&self, worker: WorkerNo, task: TaskNo);
}

/// A gate that is always open.
#[derive(Clone, Copy, Debug, Default)]
pub struct OpenGate;

impl Gate for OpenGate {
    fn pass(&self, _worker: WorkerNo, _task: TaskNo) {}
}
