ghost use Rattle.std.specs.Prelude.{◌≡◌, IfOk};
ghost use Rattle.std.specs.List.{list_any};
ghost use Rattle.osb_ident.specs.Marks.{names_pipeline, names_stage, is_marked, marks_of, manifest_marks};

use crate::Ids;
use osb_base::{Digest, List, NoMemory, Text};
use osb_manifest::Manifest;
use std::alloc::Global;

/// What names stages whose trees are to be kept.
#[derive(Debug, Drop)]
pub enum Checkpoint {
    /// The last stage of each pipeline.
    All,
    /// The last stage of the pipeline of the name, or the stages of the identifier.
    Word(Text),
}

fn names_pipeline(checkpoints: &[Checkpoint], name: &str) -> bool
    ensures { result ≡ list_any (names_pipeline name.now) checkpoints.now }
{
    checkpoints.iter().any(|checkpoint| match checkpoint {
        Checkpoint::All => true,
        Checkpoint::Word(word) => word.as_str() == name,
    })
}

fn names_stage(checkpoints: &[Checkpoint], id: &Digest) -> bool
    ensures { result ≡ list_any (names_stage id.now) checkpoints.now }
{
    checkpoints.iter().any(|checkpoint| match checkpoint {
        Checkpoint::All => false,
        Checkpoint::Word(word) => id.has_digits(word.as_str().as_bytes()),
    })
}

#[tactic(auto, unfolding(crate::specs::Marks::is_marked))]
fn is_marked(checkpoints: &[Checkpoint], name: &str, is_last: bool, id: &Digest) -> bool
    ensures { result ≡ is_marked checkpoints.now name.now is_last id.now }
{
    names_stage(checkpoints, id) || is_last && names_pipeline(checkpoints, name)
}

fn pipeline_marks(
    alloc: Global,
    checkpoints: &[Checkpoint],
    name: &str,
    ids: &[Digest],
) -> Result<List<bool>, NoMemory>
    ensures { IfOk result (λ marks. marks ≡ marks_of checkpoints.now name.now ids.now) }
{
    let mut marks = Vec::new(alloc);
    for (place, id) in ids.iter().enumerate() {
        let is_last = place + 1 == ids.len();
        marks.push(is_marked(checkpoints, name, is_last, id))?;
    }
    Ok(List::new(marks))
}

/// Which stages' trees are to be kept, by pipeline and by stage, as far as both have pipelines.
pub fn marks(
    alloc: Global,
    manifest: &Manifest,
    ids: &Ids,
    checkpoints: &[Checkpoint],
) -> Result<List<List<bool>>, NoMemory>
    ensures marks { IfOk result (λ marks. marks ≡ manifest_marks manifest.now ids.now.stages checkpoints.now) }
{
    let stages = ids.stages.as_slice();
    let count = manifest.pipelines.len().min(stages.len());
    let mut marks = Vec::new(alloc);
    for place in 0..count {
        let name = manifest.pipelines.name(place);
        let own_marks = pipeline_marks(alloc, checkpoints, name, stages[place].as_slice())?;
        marks.push(own_marks)?;
    }
    Ok(List::new(marks))
}
