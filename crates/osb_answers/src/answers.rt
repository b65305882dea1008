use osb_base::List;
use osb_ready::{Export, Unbuilt};

/// What one export is answered.
#[derive(Clone, Copy, Debug, PartialEq, Eq)]
pub enum ExportAnswer {
    /// The tree is exported, of this size in bytes.
    Exported(u64),
    /// It is not, by a counted fault of the outside.
    Fault,
    NoMemory,
}

/// An export with its answer.
#[derive(Drop)]
pub struct Exported {
    pub export: Export,
    pub answer: ExportAnswer,
}

/// What a build of one manifest is answered.
#[derive(Drop)]
pub enum Answer {
    Unbuilt(Unbuilt),
    /// There are trees: what each export is answered, in the order of the exports.
    Exports(List<Exported>),
}
