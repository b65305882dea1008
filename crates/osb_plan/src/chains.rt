//! The chains of keys of builds' pipelines, as their recipes are interned.
ghost use Rattle.std.specs.Prelude.{◌≡◌, ◌≤◌, [], IfOk, OnOk, length, slice_get};
ghost use Rattle.std.specs.List.{All, AllByRecursion};
ghost use Rattle.std.specs.Map.{values_of};
ghost use Rattle.osb_plan.specs.Planning.{pipeline_keys, table_with_pipeline, chains_with, table_with, chains_after, table_after, build_chains, table_with_build, chains_of_builds, table_with_builds, with_blobs};
ghost use Rattle.osb_plan.specs.Held.{HasBlobs, AreEndsBelow, IsReadPipeline};

use crate::Build;
use crate::stages::stage_recipe;
use osb_base::{Bytes, Digest, Key, List, NoMemory};
use osb_manifest::Pipeline;
use osb_recipe::{Table, TreeRef};
use std::alloc::Global;

/// The chains of each build's needed pipelines, with their places.
pub(crate) fn chains_of_builds(
    alloc: Global,
    builds: &[Build],
    table: &mut Table,
) -> Result<Vec<List<(usize, List<Key>)>>, NoMemory>
    requires read { All (λ build. AllByRecursion IsReadPipeline (values_of build.manifest.pipelines)) builds.now }
    ensures chains { IfOk result (λ chains. chains.items ≡ chains_of_builds table.old builds.now) }
    ensures table { OnOk result (table.new ≡ table_with_builds table.old builds.now) }
{
    let mut chains = Vec::new(alloc);
    for build in builds {
        let made = build_chains(alloc, build, table)?;
        chains.push(List::new(made))?;
    }
    Ok(chains)
}

fn build_chains(
    alloc: Global,
    build: &Build,
    table: &mut Table,
) -> Result<Vec<(usize, List<Key>)>, NoMemory>
    requires read { AllByRecursion IsReadPipeline (values_of build.now.manifest.pipelines) }
    ensures chains { IfOk result (λ chains. chains.items ≡ build_chains table.old build.now) }
    ensures table { OnOk result (table.new ≡ table_with_build table.old build.now) }
{
    intern_blobs(build.blobs.as_slice(), table)?;
    chains_of(alloc, build, build.needed.as_slice(), table)
}

/// The chains of the pipelines at some places.
fn chains_of(
    alloc: Global,
    build: &Build,
    places: &[usize],
    table: &mut Table,
) -> Result<Vec<(usize, List<Key>)>, NoMemory>
    requires read { AllByRecursion IsReadPipeline (values_of build.now.manifest.pipelines) }
    requires held { HasBlobs table.old.blobs build.now.blobs }
    ensures chains { IfOk result (λ chains. chains.items ≡ chains_after (values_of build.now.manifest.pipelines) build.now.blobs table.old [] places.now) }
    ensures table { OnOk result (table.new ≡ table_after (values_of build.now.manifest.pipelines) build.now.blobs table.old [] places.now) }
{
    let mut chains = Vec::new(alloc);
    for place in places {
        add_chain(alloc, build, *place, &mut chains, table)?;
    }
    Ok(chains)
}

/// Plans the pipeline at a place, if there is one.
fn add_chain(
    alloc: Global,
    build: &Build,
    place: usize,
    chains: &mut Vec<(usize, List<Key>)>,
    table: &mut Table,
) -> Result<(), NoMemory>
    requires read { AllByRecursion IsReadPipeline (values_of build.now.manifest.pipelines) }
    requires held { HasBlobs table.old.blobs build.now.blobs }
    requires below { AreEndsBelow (length table.old.recipes) chains.old.items }
    ensures chains { OnOk result (chains.new.items ≡ chains_with build.now.blobs table.old chains.old.items place (slice_get (values_of build.now.manifest.pipelines) place)) }
    ensures table { OnOk result (table.new ≡ table_with build.now.blobs table.old chains.old.items (slice_get (values_of build.now.manifest.pipelines) place)) }
    ensures blobs { OnOk result (table.new.blobs ≡ table.old.blobs) }
    ensures below { OnOk result (AreEndsBelow (length table.new.recipes) chains.new.items) }
{
    let pipelines = &build.manifest.pipelines;
    if place >= pipelines.len() {
        return Ok(());
    }
    let pipeline = pipelines.pipeline(place);
    let keys = pipeline_keys(alloc, build.blobs.as_slice(), chains, table, pipeline)?;
    chains.push((place, List::new(keys)))?;
    Ok(())
}

/// Numbers what was gathered.
fn intern_blobs(gathered: &[(Digest, Bytes)], table: &mut Table) -> Result<(), NoMemory>
    ensures table { OnOk result (table.new ≡ with_blobs table.old gathered.now) }
{
    for (_, bytes) in gathered {
        table.intern_blob(bytes.clone()?)?;
    }
    Ok(())
}

/// The keys of a pipeline's stages.
fn pipeline_keys(
    alloc: Global,
    gathered: &[(Digest, Bytes)],
    chains: &[(usize, List<Key>)],
    table: &mut Table,
    pipeline: &Pipeline,
) -> Result<Vec<Key>, NoMemory>
    requires read { IsReadPipeline pipeline.now }
    requires held { HasBlobs table.old.blobs gathered.now }
    requires below { AreEndsBelow (length table.old.recipes) chains.now }
    ensures keys { IfOk result (λ keys. keys.items ≡ pipeline_keys gathered.now chains.now table.old pipeline.now) }
    ensures table { OnOk result (table.new ≡ table_with_pipeline gathered.now chains.now table.old pipeline.now) }
    ensures blobs { table.new.blobs ≡ table.old.blobs }
    ensures grown { length table.old.recipes ≤ length table.new.recipes }
{
    let mut keys = Vec::new(alloc);
    let mut base = TreeRef::Empty;
    for stage in pipeline.stages.as_slice() {
        let recipe = stage_recipe(alloc, gathered, chains, table, pipeline.build, base, stage)?;
        let key = table.intern(recipe)?;
        keys.push(key)?;
        base = TreeRef::Of(key);
    }
    Ok(keys)
}
