use crate::Pipelines;
use osb_base::{Digest, List, NoMemory, Text};
use osb_recipe::StageKind;
use osb_sources::Items;
use osb_tree::{OptionFault, Shared};

/// What a manifest asks for.
#[derive(Drop)]
pub struct Manifest {
    /// By name, in the manifest's order.
    pub pipelines: Pipelines,
    pub items: Items,
}

/// How a tree is made: from the empty tree, stage after stage.
#[derive(Drop)]
pub struct Pipeline {
    /// The place of the pipeline in whose tree the stages run.
    pub build: Option<usize>,
    pub stages: List<Stage>,
}

/// One step of a pipeline.
#[derive(Drop)]
pub struct Stage {
    pub kind: Shared<StageKind>,
    /// The name of its type, as `org.osbuild.mkdir`.
    pub type_text: Text,
    /// Python's text of its options.
    pub options_text: Text,
    /// By rising name.
    pub inputs: List<(Text, Input)>,
}

/// What a stage reads beside its tree.
#[derive(Debug, Drop)]
pub enum Input {
    /// The tree of the pipeline at a place, with Python's text of the reference's options.
    Tree(usize, Text),
    /// Items by rising digest, each with Python's text of its options.
    Files(List<(Digest, Text)>),
}

/// Why bytes are no manifest, each with its place in the value, as a JSON Pointer (RFC 6901): the names of members and
/// the numbers of items from the top, a `/` before each, so that the top is the empty text.
#[derive(Debug, Drop)]
pub enum Refusal {
    /// 1: there are more than 16,777,216 bytes.
    TooLong(Text),
    /// 2: the bytes are no UTF-8, or no JSON.
    NotJson(Text),
    /// 3: the value is no object.
    NotObject(Text),
    /// 4: its version is not the text `2`.
    Version(Text),
    /// 5: a list has more than 256 pipelines, or more than 1,024 stages.
    TooMany(Text),
    /// 6: a member of the object at the place is absent, unknown, or of another form: its name.
    Member(Text, Text),
    /// 7: a number in options, of a stage or of a reference, is a fraction, or past 64 bits.
    BadNumber(Text),
    /// 8: a pipeline before this one has its name.
    DuplicatePipeline(Text),
    /// 9: a `build`, or the reference of a tree, is not `name:` and the name of a pipeline before its own.
    UnknownReference(Text),
    /// 10: no stage has this type.
    UnknownStage(Text),
    /// 11: an input is neither the tree of a pipeline nor items of sources.
    UnknownInput(Text),
    /// 12: no source has this name.
    UnknownSource(Text),
    /// 13: an item is referred to or listed by what is no SHA-256 digest.
    BadChecksum(Text),
    /// 14: an item that the manifest holds is not written in base64.
    Encoding(Text),
    /// 15: the stage refuses its options.
    Options(Text, OptionFault),
    NoMemory,
}

impl From<NoMemory> for Refusal {
    ghost use Rattle.std.specs.Prelude.{◌≡◌};
    ghost use Rattle.osb_manifest.specs.declared.manifests.Refusal.TheVariants.{NoMemory};

    ghost from_gives = { λ _ refusal. refusal ≡ NoMemory };

    fn from(_: NoMemory) -> Self {
        Refusal::NoMemory
    }
}
