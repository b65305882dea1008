//! The walk over a manifest's objects: the top, then each pipeline with its stages and their inputs, and then each source
//! with its items.
ghost use Rattle.std.specs.Prelude.{◌≡◌, codes, IfOk};
ghost use Rattle.std.specs.List.{flat_map};
ghost use Rattle.serde_json.specs.View.{view, items_view, members_view};
ghost use Rattle.osb_shape.specs.Firsts.{first};
ghost use Rattle.osb_shape.specs.Values.{list_of, members_at};
ghost use Rattle.osb_manifest.specs.Walks.{in_order, by_name, input_objects, stage_objects, pipeline_objects, item_objects, source_objects, all_conditions, applies, everywhere, refusals_of};

use crate::Refusal;
use crate::conditions::{Condition, applies};
use crate::objects::Object;
use osb_base::NoMemory;
use osb_shape::values::{list_at, members_at};
use serde_json::{Map, Value};
use std::alloc::Global;

/// The conditions, the least number first.
static CONDITIONS: [Condition; 13] = [
    Condition::NoObject,
    Condition::OtherVersion,
    Condition::TooMany,
    Condition::WrongMember,
    Condition::BadNumber,
    Condition::Duplicate,
    Condition::UnknownReference,
    Condition::UnknownStage,
    Condition::UnknownInput,
    Condition::UnknownSource,
    Condition::BadChecksum,
    Condition::OtherEncoding,
    Condition::WrongOptions,
];

/// The first refusal of a manifest: of the least number that applies anywhere, at its first place.
pub fn first_refusal(alloc: Global, whole: &Value) -> Result<Option<Refusal>, NoMemory>
    ensures { IfOk result (λ found. found ≡ first (refusals_of (view whole.now))) }
{
    first_of_conditions(alloc, whole, &CONDITIONS)
}

fn first_of_conditions(
    alloc: Global,
    whole: &Value,
    conditions: &[Condition],
) -> Result<Option<Refusal>, NoMemory>
    ensures { IfOk result (λ found. found ≡ first (flat_map (everywhere (view whole.now)) conditions.now)) }
{
    for condition in conditions {
        if let Some(refusal) = first_anywhere(alloc, whole, *condition)? {
            return Ok(Some(refusal));
        }
    }
    Ok(None)
}

#[tactic(auto, unfolding(crate::specs::Walks::everywhere))]
fn first_anywhere(
    alloc: Global,
    whole: &Value,
    condition: Condition,
) -> Result<Option<Refusal>, NoMemory>
    ensures { IfOk result (λ found. found ≡ first (everywhere (view whole.now) condition)) }
{
    if let Some(refusal) = applies(alloc, whole, condition, Object::Top(whole))? {
        return Ok(Some(refusal));
    }
    let pipelines = list_at(whole, "pipelines");
    if let Some(refusal) = first_of_pipelines(alloc, whole, condition, pipelines)? {
        return Ok(Some(refusal));
    }
    first_of_sources(alloc, whole, condition)
}

fn first_of_pipelines(
    alloc: Global,
    whole: &Value,
    condition: Condition,
    pipelines: &[Value],
) -> Result<Option<Refusal>, NoMemory>
    ensures { IfOk result (λ found. found ≡ first (flat_map (applies (view whole.now) condition) (in_order pipeline_objects 0 (list_of (items_view pipelines.now))))) }
{
    for (i, pipeline) in pipelines.iter().enumerate() {
        if let Some(refusal) = first_of_pipeline(alloc, whole, condition, i, pipeline)? {
            return Ok(Some(refusal));
        }
    }
    Ok(None)
}

fn first_of_pipeline(
    alloc: Global,
    whole: &Value,
    condition: Condition,
    i: usize,
    pipeline: &Value,
) -> Result<Option<Refusal>, NoMemory>
    ensures { IfOk result (λ found. found ≡ first (flat_map (applies (view whole.now) condition) (pipeline_objects i (view pipeline.now)))) }
{
    let here = Object::Pipeline(i, pipeline);
    if let Some(refusal) = applies(alloc, whole, condition, here)? {
        return Ok(Some(refusal));
    }
    first_of_stages(alloc, whole, condition, i, list_at(pipeline, "stages"))
}

fn first_of_stages(
    alloc: Global,
    whole: &Value,
    condition: Condition,
    i: usize,
    stages: &[Value],
) -> Result<Option<Refusal>, NoMemory>
    ensures { IfOk result (λ found. found ≡ first (flat_map (applies (view whole.now) condition) (in_order (stage_objects i) 0 (list_of (items_view stages.now))))) }
{
    for (j, stage) in stages.iter().enumerate() {
        if let Some(refusal) = first_of_stage(alloc, whole, condition, (i, j), stage)? {
            return Ok(Some(refusal));
        }
    }
    Ok(None)
}

/// The first refusal of a stage, which stands at its pipeline's place and its own.
fn first_of_stage(
    alloc: Global,
    whole: &Value,
    condition: Condition,
    place: (usize, usize),
    stage: &Value,
) -> Result<Option<Refusal>, NoMemory>
    ensures { IfOk result (λ found. found ≡ first (flat_map (applies (view whole.now) condition) (stage_objects place.0 place.1 (view stage.now)))) }
{
    let here = Object::Stage(place.0, place.1, stage);
    if let Some(refusal) = applies(alloc, whole, condition, here)? {
        return Ok(Some(refusal));
    }
    match members_at(stage, "inputs") {
        Some(inputs) => first_of_inputs(alloc, whole, condition, place, inputs),
        None => Ok(None),
    }
}

fn first_of_inputs(
    alloc: Global,
    whole: &Value,
    condition: Condition,
    place: (usize, usize),
    inputs: &Map<String, Value>,
) -> Result<Option<Refusal>, NoMemory>
    ensures { IfOk result (λ found. found ≡ first (flat_map (applies (view whole.now) condition) (by_name (input_objects place.0 place.1) (members_view inputs.now.entries)))) }
{
    for (name, input) in inputs.iter() {
        let here = Object::Input(place.0, place.1, name.as_str(), input);
        if let Some(refusal) = applies(alloc, whole, condition, here)? {
            return Ok(Some(refusal));
        }
    }
    Ok(None)
}

fn first_of_sources(
    alloc: Global,
    whole: &Value,
    condition: Condition,
) -> Result<Option<Refusal>, NoMemory>
    ensures { IfOk result (λ found. found ≡ first (flat_map (applies (view whole.now) condition) (by_name source_objects (members_at (codes "sources") (view whole.now))))) }
{
    match members_at(whole, "sources") {
        Some(sources) => first_of_named(alloc, whole, condition, sources),
        None => Ok(None),
    }
}

fn first_of_named(
    alloc: Global,
    whole: &Value,
    condition: Condition,
    sources: &Map<String, Value>,
) -> Result<Option<Refusal>, NoMemory>
    ensures { IfOk result (λ found. found ≡ first (flat_map (applies (view whole.now) condition) (by_name source_objects (members_view sources.now.entries)))) }
{
    for (name, source) in sources.iter() {
        if let Some(refusal) = first_of_source(alloc, whole, condition, name.as_str(), source)? {
            return Ok(Some(refusal));
        }
    }
    Ok(None)
}

fn first_of_source(
    alloc: Global,
    whole: &Value,
    condition: Condition,
    name: &str,
    source: &Value,
) -> Result<Option<Refusal>, NoMemory>
    ensures { IfOk result (λ found. found ≡ first (flat_map (applies (view whole.now) condition) (source_objects name.now (view source.now)))) }
{
    let here = Object::Source(name, source);
    if let Some(refusal) = applies(alloc, whole, condition, here)? {
        return Ok(Some(refusal));
    }
    match members_at(source, "items") {
        Some(items) => first_of_items(alloc, whole, condition, name, items),
        None => Ok(None),
    }
}

fn first_of_items(
    alloc: Global,
    whole: &Value,
    condition: Condition,
    source: &str,
    items: &Map<String, Value>,
) -> Result<Option<Refusal>, NoMemory>
    ensures { IfOk result (λ found. found ≡ first (flat_map (applies (view whole.now) condition) (by_name (item_objects source.now) (members_view items.now.entries)))) }
{
    for (name, item) in items.iter() {
        let here = Object::Item(source, name.as_str(), item);
        if let Some(refusal) = applies(alloc, whole, condition, here)? {
            return Ok(Some(refusal));
        }
    }
    Ok(None)
}
