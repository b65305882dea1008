use osb_base::{NoMemory, Text};
use osb_manifest::Refusal;
use osb_sources::SourceAnswer;
use osb_tree::StageFault;
use std::alloc::AllocFailed;

/// Why a build has no trees.
#[derive(Drop)]
pub enum Unbuilt {
    /// No manifest has the name.
    Absent,
    /// The manifest was not read, by a counted fault of the outside.
    ReadFault,
    Refused(Refusal),
    /// The manifest has no pipeline of the name.
    NoSuchExport(Text),
    /// An item that the exports need was not had.
    Source(SourceAnswer),
    /// A stage of the pipeline, by its place from 0, has a fault.
    Failed {
        pipeline: Text,
        stage: u64,
        fault: StageFault,
    },
    NoMemory,
}

impl From<NoMemory> for Unbuilt {
    ghost use Rattle.std.specs.Prelude.{◌≡◌};
    ghost use Rattle.osb_ready.specs.declared.unbuilt.Unbuilt.TheVariants.{NoMemory};

    ghost from_gives = { λ _ unbuilt. unbuilt ≡ NoMemory };

    fn from(_: NoMemory) -> Self {
        Unbuilt::NoMemory
    }
}

impl<T: Drop> From<AllocFailed<T>> for Unbuilt {
    ghost use Rattle.std.specs.Prelude.{◌≡◌};
    ghost use Rattle.osb_ready.specs.declared.unbuilt.Unbuilt.TheVariants.{NoMemory};

    ghost from_gives = { λ _ unbuilt. unbuilt ≡ NoMemory };

    fn from(_: AllocFailed<T>) -> Self {
        Unbuilt::NoMemory
    }
}
