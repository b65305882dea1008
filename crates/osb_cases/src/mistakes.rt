use std::alloc::AllocError;
use thiserror::Error;

/// What is wrong with a line of a case file.
#[derive(Clone, Copy, Debug, PartialEq, Eq, Error)]
pub enum Mistake {
    #[error("a line begins with a blank, and not with four spaces")]
    Indented,
    #[error("a block stands below no line that takes one")]
    StrayBlock,
    #[error("a line with a value has a block too")]
    ValueAndBlock,
    #[error("no such kind of call is known")]
    UnknownCall,
    #[error("a line stands before the first `call`")]
    NoCall,
    #[error("the file has no case")]
    NoCase,
    #[error("a case has no name")]
    NoName,
    #[error("an earlier case of the file has this name")]
    SameName,
    #[error("a line of this kind stands here already")]
    GivenTwice,
    #[error("this kind of call takes no such line")]
    UnknownLine,
    #[error("the case has no `due` line")]
    NothingDue,
    #[error("this kind of call has no such section")]
    UnknownSection,
    #[error("this kind of call needs a line that is not given")]
    NotGiven,
    #[error("no such part is known")]
    UnknownPart,
    #[error("`parts` has no block")]
    NoParts,
    #[error("the `part` that is inserted is not given")]
    PartNotGiven,
    #[error("no number stands where one is due")]
    NoNumber,
    #[error("these are no bytes in hex")]
    NotHex,
    #[error("the text is not UTF-8")]
    NotUtf8,
    #[error("the text is no JSON value")]
    NotJson,
    #[error("the value is no object")]
    NotAnObject,
    #[error("the value is no manifest")]
    NoManifest,
    #[error("the file is no manifest with these exports and the items that they need")]
    NoBuild,
    #[error("this is no object whose calls can fail")]
    UnknownObject,
    #[error("the run before leaves no store")]
    NothingKept,
    #[error("a mirror has no name, or that of another object")]
    NoMirrorName,
    #[error("a mirror is given neither `gone` nor an item")]
    NotAnItem,
    #[error("this is no digest")]
    NotADigest,
    #[error("a line of the text is no put")]
    NotAPut,
    #[error("a line of the changes is no change, or has no place among the pairs")]
    NotAChange,
    #[error("a chunk would have more than 256 pairs, or more than the size of a tree")]
    NotAChunk,
    #[error("the text is no path")]
    NotAPath,
    #[error("the node's mode, owners or target are not in their ranges")]
    NodeOutOfRange,
    #[error("a line that takes a block alone has a value")]
    ValueForBlock,
    #[error("a task waits for one that is not lower")]
    NotLower,
    #[error("a worker has no number of 0 to 63")]
    NoWorker,
    #[error("a line of the script is no action")]
    NotAnAction,
    #[error("the limit is above 2^62")]
    NoLimit,
    #[error("the script does not allow this action now")]
    NotAllowed,
}

/// Why a case file was not run to its end.
#[derive(Debug, Drop, Error)]
pub enum CaseFault {
    #[error("{line}: {mistake}")]
    Malformed { line: usize, mistake: Mistake },
    #[error(" want of memory")]
    NoMemory(#[from(alloc)] AllocError),
}

impl Mistake {
    pub fn at(self, line: usize) -> CaseFault {
        CaseFault::Malformed {
            line,
            mistake: self,
        }
    }
}
