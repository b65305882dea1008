//! Gates that note what passes them.
use osb_base::{Gate, WorkerNo};
use osb_tree::TaskNo;
use std::sync::atomic::{AtomicU64, Ordering};
use std::thread::yield_now;

/// How often a task that is held looks for the other one.
const MOST_TURNS: u32 = 100_000_000;

/// A gate that counts its passes. Where it holds, task 0 passes when task 1 has passed, or when it has looked for it so
/// many times.
#[derive(Drop)]
pub struct NotingGate {
    holds: bool,
    passes: AtomicU64,
    /// How often task 1 has passed.
    others: AtomicU64,
    /// How often task 0 has passed without it.
    alone: AtomicU64,
}

impl NotingGate {
    pub fn new(holds: bool) -> Self {
        NotingGate {
            holds,
            passes: AtomicU64::new(0),
            others: AtomicU64::new(0),
            alone: AtomicU64::new(0),
        }
    }

    pub fn passes(&self) -> u64 {
        self.passes.load(Ordering::SeqCst)
    }

    pub fn alone(&self) -> u64 {
        self.alone.load(Ordering::SeqCst)
    }

    fn hold(&self) {
        for _ in 0..MOST_TURNS {
            if self.others.load(Ordering::SeqCst) > 0 {
                return;
            }
            yield_now();
        }
        self.alone.fetch_add(1, Ordering::SeqCst);
    }
}

impl Gate for NotingGate {
    fn pass(&self, _worker: WorkerNo, task: TaskNo) {
        self.passes.fetch_add(1, Ordering::SeqCst);
        if task.0 == 1 {
            self.others.fetch_add(1, Ordering::SeqCst);
        }
        if task.0 == 0 && self.holds {
            self.hold();
        }
    }
}
