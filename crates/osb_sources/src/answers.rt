use osb_base::{Digest, NoMemory};
use std::alloc::AllocFailed;

/// Why an item was not had. Of several reasons the first of `Fault`, `ItemTooLarge`, `Wrong` and `Missing` is answered.
#[derive(Debug, Drop)]
pub enum SourceAnswer {
    /// 1: the manifest holds no text of it, and each fetcher that was asked hasn't it.
    Missing(Digest),
    /// 2: only bytes of another digest were had.
    Wrong(Digest),
    /// 3: a fetcher failed.
    Fault(Digest),
    /// 4: the manifest's own text is no base64.
    BadBase64(Digest),
    /// 5: only more than 16,777,216 bytes were had. Where the manifest's own text has so many, no fetcher is asked.
    ItemTooLarge(Digest),
    NoMemory,
}

impl From<NoMemory> for SourceAnswer {
    ghost use Rattle.std.specs.Prelude.{◌≡◌};
    ghost use Rattle.osb_sources.specs.declared.answers.SourceAnswer.TheVariants.{NoMemory};

    ghost from_gives = { λ _ e. e ≡ NoMemory };

    fn from(_: NoMemory) -> Self {
        SourceAnswer::NoMemory
    }
}

impl<T: Drop> From<AllocFailed<T>> for SourceAnswer {
    ghost use Rattle.std.specs.Prelude.{◌≡◌};
    ghost use Rattle.osb_sources.specs.declared.answers.SourceAnswer.TheVariants.{NoMemory};

    ghost from_gives = { λ _ e. e ≡ NoMemory };

    fn from(_: AllocFailed<T>) -> Self {
        SourceAnswer::NoMemory
    }
}
