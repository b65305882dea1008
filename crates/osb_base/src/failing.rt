ghost use Rattle.std.specs.Prelude.{◌≡◌, ◌≤◌};
ghost use Rattle.osb_base.specs.Calls.{Calls, no_calls, is_to_fail, with_call, with_fault};

use std::marker::Model;

/// The calls of an object in memory, counted from 1, of which some are to fail.
#[derive(Drop)]
pub struct FailingCalls {
    failing: Vec<u64>,
    made: u64,
    faults: u64,
}

impl Model for FailingCalls {
    ghost Value = { Calls };

    ghost view = { λ c. record { failing = c.failing.items; made = c.made; faults = c.faults } };
}

impl FailingCalls {
    pub fn new(failing: Vec<u64>) -> Self
        ensures calls { result ≡ no_calls failing.items }
    {
        FailingCalls {
            failing,
            made: 0,
            faults: 0,
        }
    }

    /// Whether the next call is to fail.
    pub fn fails_next(&self) -> bool
        ensures fails { result ≡ is_to_fail self.now }
    {
        let number = self.made.saturating_add(1);
        self.failing.contains(&number)
    }

    /// Counts a call that was done.
    pub fn count_call(&mut self)
        ensures counted { self.new ≡ with_call self.old }
    {
        self.made = self.made.saturating_add(1);
    }

    /// Counts a call that failed, or was stuck.
    pub fn count_fault(&mut self)
        ensures counted { self.new ≡ with_fault self.old }
        ensures later { self.old.faults ≤ self.new.faults }
    {
        self.made = self.made.saturating_add(1);
        self.faults = self.faults.saturating_add(1);
    }
}
