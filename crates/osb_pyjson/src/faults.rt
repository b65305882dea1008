use std::alloc::AllocError;
use thiserror::Error;

/// Why a value has no text.
#[derive(Debug, Drop, Error)]
pub enum PyFault {
    #[error("a number is no whole number from -2^63 to 2^64-1")]
    NotWhole,
    #[error("out of memory")]
    NoMemory,
}

impl From<AllocError> for PyFault {
    ghost use Rattle.std.specs.Prelude.{◌≡◌};
    ghost use Rattle.osb_pyjson.specs.declared.faults.PyFault.TheVariants.{NoMemory};

    ghost from_gives = { λ _ fault. fault ≡ NoMemory };

    fn from(_error: AllocError) -> Self {
        PyFault::NoMemory
    }
}
