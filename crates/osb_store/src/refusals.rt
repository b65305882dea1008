use std::alloc::AllocError;
use thiserror::Error;

/// Why bytes are no store.
#[derive(Clone, Copy, Debug, PartialEq, Eq, Error)]
pub enum StoreRefusal {
    #[error("this is no store")]
    Magic,
    #[error("the store is cut off")]
    Truncated,
    #[error("bytes stand behind the store")]
    TrailingBytes,
    #[error("the store's digest is another")]
    Digest,
    /// With the number of items before the first that is cut off or breaks a rule; each count is an item.
    #[error("item {0} of the store is none")]
    Shape(u64),
    #[error("out of memory")]
    NoMemory,
}

impl From<AllocError> for StoreRefusal {
    ghost use Rattle.std.specs.Prelude.{◌≡◌};
    ghost use Rattle.osb_store.specs.declared.refusals.StoreRefusal.TheVariants.{NoMemory};

    ghost from_gives = { λ _ refusal. refusal ≡ NoMemory };

    fn from(_error: AllocError) -> Self {
        StoreRefusal::NoMemory
    }
}
