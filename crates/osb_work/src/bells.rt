//! What a worker sleeps by while its claim has to wait.
use std::sync::{Condvar, Mutex, Wait};

/// A bell that is rung where a task has ended.
#[derive(Drop)]
pub(crate) struct Bell {
    /// How often it was rung, wrapping.
    rings: Mutex<u64>,
    rung: Condvar,
}

impl Bell {
    pub(crate) fn new() -> Self {
        Bell {
            rings: Mutex::new(0),
            rung: Condvar::new(),
        }
    }

    /// How often it was rung so far.
    pub(crate) fn rings(&self, rt: &impl Wait) -> u64 {
        *self.rings.lock(rt)
    }

    pub(crate) fn ring(&self, rt: &impl Wait) {
        let mut rings = self.rings.lock(rt);
        *rings = rings.wrapping_add(1);
        drop(rings);
        self.rung.notify_all();
    }

    /// Sleeps until it was rung more often than that.
    pub(crate) fn wait_past(&self, rt: &impl Wait, heard: u64) {
        let rings = self.rings.lock(rt);
        drop(self.rung.wait_while(rt, rings, |rings| *rings == heard));
    }
}
