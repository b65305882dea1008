use crate::{List, Path, Shared, Text, Tree};
use std::alloc::{AllocError, AllocFailed};
use thiserror::Error;

/// Why a text gives no path.
#[derive(Debug, Drop, Error)]
pub enum PathFault {
    /// 1
    #[error("the path is empty")]
    Empty,
    /// 2
    #[error("the path does not begin with a slash")]
    NotAbsolute,
    /// 3
    #[error("a name of the path is `.` or `..`")]
    DotName,
    /// 4
    #[error("the path has a NUL byte")]
    NulByte,
    /// 5
    #[error("the path is longer than 4096 bytes")]
    TooLong,
    #[error("want of memory")]
    NoMemory,
}

impl From<AllocError> for PathFault {
    ghost use Rattle.std.specs.Prelude.{◌≡◌};
    ghost use Rattle.osb_tree.specs.declared.faults.PathFault.TheVariants.{NoMemory};

    ghost from_gives = { λ _ e. e ≡ NoMemory };

    fn from(_error: AllocError) -> Self {
        PathFault::NoMemory
    }
}

/// Why a node can't be put at a path.
#[derive(Debug, Drop)]
pub enum PutFault {
    /// 1: there is no directory to put it into.
    ParentMissing,
    /// 2: what stands above it can hold nothing.
    ParentNotDir,
    /// 3: only a directory can stand there, since it is the root or holds something.
    NotEmpty,
    /// 4: with it there would be more paths than `MAX_PATHS`, or more bytes than `MAX_SIZE`.
    TooLarge,
    NoMemory,
}

impl From<AllocError> for PutFault {
    ghost use Rattle.std.specs.Prelude.{◌≡◌};
    ghost use Rattle.osb_tree.specs.declared.faults.PutFault.TheVariants.{NoMemory};

    ghost from_gives = { λ _ e. e ≡ NoMemory };

    fn from(_error: AllocError) -> Self {
        PutFault::NoMemory
    }
}

/// The trees that a stage reads beside its own, by rising name; the names differ.
#[derive(Drop)]
pub struct Inputs {
    pub trees: List<(Text, Shared<Tree>)>,
}

/// Why a stage's options are refused: the member, by its name.
#[derive(Debug, Drop)]
pub enum OptionFault {
    /// 1: it has to be there, and isn't.
    Missing(Text),
    /// 2: it is JSON of another kind, as a text for a number.
    WrongKind(Text),
    /// 3: its kind is right, and its value is not one of those that may be.
    OutOfRange(Text),
    /// 4: it has to name a path, and names none.
    BadPath(Text),
    /// 5: nothing is called so here.
    UnknownMember(Text),
    NoMemory,
}

impl From<AllocError> for OptionFault {
    ghost use Rattle.std.specs.Prelude.{◌≡◌};
    ghost use Rattle.osb_tree.specs.declared.faults.OptionFault.TheVariants.{NoMemory};

    ghost from_gives = { λ _ e. e ≡ NoMemory };

    fn from(_error: AllocError) -> Self {
        OptionFault::NoMemory
    }
}

impl<T: Drop> From<AllocFailed<T>> for OptionFault {
    ghost use Rattle.std.specs.Prelude.{◌≡◌};
    ghost use Rattle.osb_tree.specs.declared.faults.OptionFault.TheVariants.{NoMemory};

    ghost from_gives = { λ _ e. e ≡ NoMemory };

    fn from(_failed: AllocFailed<T>) -> Self {
        OptionFault::NoMemory
    }
}

/// Why a stage has no tree.
#[derive(Debug, Drop)]
pub enum StageFault {
    /// 1: nothing stands at the path.
    Missing(Path),
    /// 2: something stands at the path.
    Exists(Path),
    /// 3: what stands at the path is no directory.
    NotADir(Path),
    /// 4: what stands at the path is no file.
    NotAFile(Path),
    /// 5: the stage has no input of the name.
    NoInput(Text),
    /// 6: no account has the name.
    NoAccount(Text),
    /// 7: an account has the name.
    AccountExists(Text),
    /// 8: an account has the number.
    NumberTaken(u64),
    /// 9: the line of the account file, from 1, has not its form.
    BadLine(Path, u64),
    /// 10: the build tree lacks the program.
    ToolMissing(Path),
    /// 11: the stage was asked to fail with the number.
    Asked(u64),
    /// 12: the tree would pass a limit.
    TreeTooLarge,
    NoMemory,
}

impl From<AllocError> for StageFault {
    ghost use Rattle.std.specs.Prelude.{◌≡◌};
    ghost use Rattle.osb_tree.specs.declared.faults.StageFault.TheVariants.{NoMemory};

    ghost from_gives = { λ _ e. e ≡ NoMemory };

    fn from(_error: AllocError) -> Self {
        StageFault::NoMemory
    }
}
