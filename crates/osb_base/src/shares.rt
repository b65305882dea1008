ghost use Rattle.std.specs.Prelude.{◌≡◌, IfOk};

use crate::NoMemory;

/// A value that several owners can have.
pub trait Share: Sized {
    /// One more owner of the same value.
    fn share(&self) -> Result<Self, NoMemory>
        ensures same { IfOk result (λ copy. copy ≡ self.now) };
}
