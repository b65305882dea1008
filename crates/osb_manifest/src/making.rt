//! The manifest that a value stands for in which nothing is wrong.
ghost use Rattle.std.specs.Prelude.{◌≡◌, [], codes, length, false, Ok, Some, None, IfOk, map};
ghost use Rattle.std.specs.List.{AllByRecursion, filter_map};
ghost use Rattle.serde_json.specs.View.{view, items_view};
ghost use Rattle.osb_pyjson.specs.PyText.{py_data};
ghost use Rattle.osb_stages.specs.Readers.{IsObject};
ghost use Rattle.osb_recipe.specs.Kinds.{kind_of};
ghost use Rattle.osb_shape.specs.Firsts.{first};
ghost use Rattle.osb_shape.specs.Values.{list_of, list_at};
ghost use Rattle.osb_shape.specs.Numbers.{bad_numbers};
ghost use Rattle.osb_manifest.specs.Walks.{is_unknown, faults_of, refusals_of};
ghost use Rattle.osb_manifest.specs.Right.{IsRightStage, IsRightPipeline, stage_counts};
ghost use Rattle.osb_manifest.specs.Named.{named};
ghost use Rattle.osb_manifest.specs.Manifests.{made_stage, made_build, made_pipeline, made_manifest};

use crate::making_inputs::{make_inputs, place_named};
use crate::making_items::make_items;
use crate::{Manifest, Pipeline, Pipelines, Stage};
use osb_base::{List, NoMemory, Text};
use osb_pyjson::{PyFault, py_text};
use osb_recipe::{KindFault, StageKind};
use osb_shape::references::referred;
use osb_shape::values::{list_at, object_at, text_at};
use osb_tree::Shared;
use serde_json::{Map, Value};
use std::alloc::{AllocError, Global};

pub fn make_manifest(alloc: Global, value: &Value) -> Result<Manifest, NoMemory>
    requires { first (refusals_of (view value.now)) ≡ None }
    ensures made { IfOk result (λ manifest. manifest ≡ made_manifest (view value.now)) }
    ensures kept { IfOk result (λ manifest. map (λ p. length p.1.stages) manifest.pipelines ≡ stage_counts (list_at (codes "pipelines") (view value.now))) }
{
    let values = list_at(value, "pipelines");
    let pipelines = make_pipelines(alloc, values)?;
    Ok(Manifest {
        pipelines: Pipelines::new(alloc, pipelines)?,
        items: make_items(alloc, value)?,
    })
}

fn make_pipelines(alloc: Global, values: &[Value]) -> Result<Vec<(String, Pipeline)>, NoMemory>
    requires { AllByRecursion IsRightPipeline (list_of (items_view values.now)) }
    ensures made { IfOk result (λ pipelines. map named pipelines.items ≡ filter_map (made_pipeline (list_of (items_view values.now))) (list_of (items_view values.now))) }
    ensures kept { IfOk result (λ pipelines. map (λ p. length p.1.stages) pipelines.items ≡ stage_counts (list_of (items_view values.now))) }
{
    let mut pipelines = Vec::new(alloc);
    for value in values {
        pipelines.push(make_pipeline(alloc, values, value)?)?;
    }
    Ok(pipelines)
}

/// A pipeline of a list.
fn make_pipeline(
    alloc: Global,
    pipelines: &[Value],
    value: &Value,
) -> Result<(String, Pipeline), NoMemory>
    requires { IsRightPipeline (view value.now) }
    ensures made { IfOk result (λ pipeline. made_pipeline (list_of (items_view pipelines.now)) (view value.now) ≡ Some (named pipeline)) }
    ensures kept { IfOk result (λ pipeline. length pipeline.1.stages ≡ length (list_at (codes "stages") (view value.now))) }
{
    let name = text_at(value, "name").unwrap();
    let name = String::from_str(alloc, name)?;
    let stages = List::new(make_stages(alloc, pipelines, list_at(value, "stages"))?);
    Ok((
        name,
        Pipeline {
            build: build_place(pipelines, value),
            stages,
        },
    ))
}

/// The place of the pipeline that the `build` of a pipeline of a list names.
fn build_place(pipelines: &[Value], value: &Value) -> Option<usize>
    ensures { result ≡ made_build (list_of (items_view pipelines.now)) (view value.now) }
{
    let name = referred(text_at(value, "build")?)?;
    place_named(pipelines, name)
}

fn make_stages(alloc: Global, pipelines: &[Value], values: &[Value]) -> Result<Vec<Stage>, NoMemory>
    requires { AllByRecursion IsRightStage (list_of (items_view values.now)) }
    ensures made { IfOk result (λ stages. stages.items ≡ filter_map (made_stage (list_of (items_view pipelines.now))) (list_of (items_view values.now))) }
    ensures kept { IfOk result (λ stages. length stages.items ≡ length values.now) }
{
    let mut stages = Vec::new(alloc);
    for value in values {
        stages.push(make_stage(alloc, pipelines, value)?)?;
    }
    Ok(stages)
}

fn make_stage(alloc: Global, pipelines: &[Value], value: &Value) -> Result<Stage, NoMemory>
    requires { IsRightStage (view value.now) }
    ensures { IfOk result (λ stage. made_stage (list_of (items_view pipelines.now)) (view value.now) ≡ Some stage) }
{
    let text = text_at(value, "type").unwrap();
    let empty = Value::Object(Map::new(alloc));
    let options = object_at(value, "options", &empty);
    Ok(Stage {
        kind: Shared::new(alloc, known_kind(alloc, text, options)?)?,
        type_text: Text::new(alloc, text)?,
        options_text: text_of(alloc, options)?,
        inputs: List::new(make_inputs(alloc, pipelines, value)?),
    })
}

/// The kind of a stage whose type is known and that takes its options.
fn known_kind(alloc: Global, text: &str, options: &Value) -> Result<StageKind, NoMemory>
    requires object { IsObject (view options.now) }
    requires known { is_unknown (Some (kind_of text.now (view options.now))) ≡ false }
    requires taken { faults_of (Some (kind_of text.now (view options.now))) ≡ [] }
    ensures { IfOk result (λ kind. kind_of text.now (view options.now) ≡ Ok kind) }
{
    match StageKind::read(alloc, text, options) {
        Ok(kind) => Ok(kind),
        Err(KindFault::UnknownStage) => unreachable!(),
        Err(KindFault::Options(_)) => unreachable!(),
        Err(KindFault::NoMemory) => Err(AllocError),
    }
}

/// Python's text of a value whose numbers have one.
fn text_of(alloc: Global, value: &Value) -> Result<Text, NoMemory>
    requires { bad_numbers (view value.now) ≡ [] }
    ensures { IfOk result (λ text. py_data (view value.now) ≡ Some text) }
{
    match py_text(alloc, value) {
        Ok(text) => Ok(text),
        Err(PyFault::NotWhole) => unreachable!(),
        Err(PyFault::NoMemory) => Err(AllocError),
    }
}
