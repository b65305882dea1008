ghost use Rattle.std.specs.Prelude.{◌≡◌, IfOk, option_copied, option_and_then};
ghost use Rattle.sha2.specs.Sha256.{sha256};
ghost use Rattle.osb_ident.specs.Hashed.{Takes};
ghost use Rattle.osb_ident.specs.Idents.{pipeline_id, stage_text, pipeline_ids, manifest_ids};

use crate::hashing::{take_id, take_quoted, take_text};
use crate::inputs::{pipeline_id, take_inputs};
use osb_base::{Digest, List, NoMemory};
use osb_manifest::{Manifest, Pipeline, Stage};
use sha2::{Digest as Hashing, Sha256};
use std::alloc::Global;

/// The identifiers of a manifest's stages.
#[derive(Drop)]
pub struct Ids {
    /// By pipeline and by stage.
    pub stages: List<List<Digest>>,
}

fn stage_id(
    alloc: Global,
    ids: &[List<Digest>],
    build: Option<&Digest>,
    before: Option<&Digest>,
    stage: &Stage,
) -> Result<Digest, NoMemory>
    ensures { IfOk result (λ id. id
        ≡ sha256 (stage_text ids.now (option_copied build.entry) (option_copied before.entry) stage.now)) }
{
    let mut hasher = Sha256::new();
    take_quoted(alloc, &mut hasher, stage.type_text.as_str())?;
    take_id(alloc, &mut hasher, build)?;
    take_id(alloc, &mut hasher, before)?;
    take_text(&mut hasher, stage.options_text.as_str());
    take_inputs(alloc, &mut hasher, ids, stage.inputs.as_slice())?;
    Ok(Digest::of(hasher.finalize()))
}

fn build_id(ids: &[List<Digest>], build: Option<usize>) -> Option<&Digest>
    ensures { option_copied result ≡ option_and_then (pipeline_id ids.now) build }
{
    pipeline_id(ids, build?)
}

fn pipeline_ids(
    alloc: Global,
    ids: &[List<Digest>],
    pipeline: &Pipeline,
) -> Result<List<Digest>, NoMemory>
    ensures { IfOk result (λ own. own ≡ pipeline_ids ids.now pipeline.now) }
{
    let build = build_id(ids, pipeline.build);
    let mut own = Vec::new(alloc);
    for stage in pipeline.stages.as_slice() {
        let id = stage_id(alloc, ids, build, own.last(), stage)?;
        own.push(id)?;
    }
    Ok(List::new(own))
}

/// The identifier of each stage of a manifest.
pub fn stage_ids(alloc: Global, manifest: &Manifest) -> Result<Ids, NoMemory>
    ensures ids { IfOk result (λ ids. ids.stages ≡ manifest_ids manifest.now) }
{
    let mut ids = Vec::new(alloc);
    for place in 0..manifest.pipelines.len() {
        let own = pipeline_ids(alloc, &ids, manifest.pipelines.pipeline(place))?;
        ids.push(own)?;
    }
    Ok(Ids {
        stages: List::new(ids),
    })
}
