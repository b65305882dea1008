ghost use Rattle.std.specs.Prelude.{◌≡◌, IfOk};

use osb_base::Share;
use osb_tree::{NoMemory, Shared, StageFault, Tree};

/// What building a pipeline gave.
#[derive(Drop)]
pub enum Outcome {
    /// Its tree.
    Tree(Shared<Tree>),
    /// The fault of a stage, by its place from 0.
    Fault(u64, StageFault),
    /// What it is built with has no tree.
    Blocked,
    NoMemory,
}

impl Share for Outcome {
    fn share(&self) -> Result<Self, NoMemory> {
        match self {
            Outcome::Tree(tree) => Ok(Outcome::Tree(tree.share()?)),
            Outcome::Fault(place, fault) => Ok(Outcome::Fault(*place, copy_of(fault)?)),
            Outcome::Blocked => Ok(Outcome::Blocked),
            Outcome::NoMemory => Ok(Outcome::NoMemory),
        }
    }
}

fn copy_of(fault: &StageFault) -> Result<StageFault, NoMemory>
    ensures { IfOk result (λ copy. copy ≡ fault.now) }
{
    match fault {
        StageFault::Missing(path) => Ok(StageFault::Missing(path.clone()?)),
        StageFault::Exists(path) => Ok(StageFault::Exists(path.clone()?)),
        StageFault::NotADir(path) => Ok(StageFault::NotADir(path.clone()?)),
        StageFault::NotAFile(path) => Ok(StageFault::NotAFile(path.clone()?)),
        StageFault::NoInput(name) => Ok(StageFault::NoInput(name.clone()?)),
        StageFault::NoAccount(name) => Ok(StageFault::NoAccount(name.clone()?)),
        StageFault::AccountExists(name) => Ok(StageFault::AccountExists(name.clone()?)),
        StageFault::NumberTaken(number) => Ok(StageFault::NumberTaken(*number)),
        StageFault::BadLine(path, line) => Ok(StageFault::BadLine(path.clone()?, *line)),
        StageFault::ToolMissing(path) => Ok(StageFault::ToolMissing(path.clone()?)),
        StageFault::Asked(number) => Ok(StageFault::Asked(*number)),
        StageFault::TreeTooLarge => Ok(StageFault::TreeTooLarge),
        StageFault::NoMemory => Ok(StageFault::NoMemory),
    }
}
