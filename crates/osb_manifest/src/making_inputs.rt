//! The inputs of a stage, from its value.
ghost use Rattle.std.specs.Prelude.{◌≡◌, ℕ, ◌++◌, List as Items, codes, IfOk, OnOk};
ghost use Rattle.std.specs.List.{cons_option};
ghost use Rattle.serde_json.specs.View.{view, items_view, members_view};
ghost use Rattle.osb_pyjson.specs.PyText.{py_data};
ghost use Rattle.osb_shape.specs.Values.{list_of, members_at};
ghost use Rattle.osb_manifest.specs.Manifests.{place_named, made_tree, made_file, made_files, made_input, named_input, made_inputs};
ghost use Rattle.osb_manifest.specs.declared.manifests.Input.{Input as SeenInput};

use crate::Input;
use osb_base::{Digest, List, NoMemory, Text};
use osb_pyjson::{PyFault, py_text};
use osb_shape::references::{is_tree_input, references_at, referred_first};
use osb_shape::values::{has_text, members_at};
use serde_json::{Map, Value};
use std::alloc::{AllocError, Global};

/// The inputs of a stage of a list of pipelines, by rising name.
pub fn make_inputs(
    alloc: Global,
    pipelines: &[Value],
    stage: &Value,
) -> Result<Vec<(Text, Input)>, NoMemory>
    ensures { IfOk result (λ inputs. inputs.items ≡ made_inputs (list_of (items_view pipelines.now)) (members_at (codes "inputs") (view stage.now))) }
{
    match members_at(stage, "inputs") {
        Some(inputs) => named_inputs(alloc, pipelines, inputs),
        None => Ok(Vec::new(alloc)),
    }
}

fn named_inputs(
    alloc: Global,
    pipelines: &[Value],
    inputs: &Map<String, Value>,
) -> Result<Vec<(Text, Input)>, NoMemory>
    ensures { IfOk result (λ made. made.items ≡ made_inputs (list_of (items_view pipelines.now)) (members_view inputs.now.entries)) }
{
    let mut made = Vec::new(alloc);
    for (name, input) in inputs.iter() {
        add_input(alloc, pipelines, name.as_str(), input, &mut made)?;
    }
    Ok(made)
}

/// Adds an input, where it is one.
fn add_input(
    alloc: Global,
    pipelines: &[Value],
    name: &str,
    input: &Value,
    made: &mut Vec<(Text, Input)>,
) -> Result<(), NoMemory>
    ensures { OnOk result ((rest : Items (Items ℕ × SeenInput)) → made.new.items ++ rest ≡ made.old.items ++ cons_option (named_input (list_of (items_view pipelines.now)) name.now (view input.now)) rest) }
{
    if let Some(input) = make_input(alloc, pipelines, input)? {
        made.push((Text::new(alloc, name)?, input))?;
    }
    Ok(())
}

fn make_input(alloc: Global, pipelines: &[Value], input: &Value) -> Result<Option<Input>, NoMemory>
    ensures { IfOk result (λ made. made ≡ made_input (list_of (items_view pipelines.now)) (view input.now)) }
{
    let references = references_at(alloc, input)?;
    if is_tree_input(input) {
        return make_tree(alloc, pipelines, &references);
    }
    let files = make_files(alloc, &references)?;
    Ok(Some(Input::Files(List::new(files))))
}

/// The tree of the pipeline that the first of some references names.
fn make_tree(
    alloc: Global,
    pipelines: &[Value],
    references: &Map<String, Value>,
) -> Result<Option<Input>, NoMemory>
    ensures { IfOk result (λ made. made ≡ made_tree (list_of (items_view pipelines.now)) (members_view references.now.entries)) }
{
    let Some((_, options)) = references.iter().next() else {
        return Ok(None);
    };
    let Some(name) = referred_first(references) else {
        return Ok(None);
    };
    let Some(place) = place_named(pipelines, name) else {
        return Ok(None);
    };
    match python_text(alloc, options)? {
        Some(text) => Ok(Some(Input::Tree(place, text))),
        None => Ok(None),
    }
}

/// The place of the pipeline of a name in a list.
pub fn place_named(pipelines: &[Value], name: &str) -> Option<usize>
    ensures { result ≡ place_named (list_of (items_view pipelines.now)) name.now }
{
    for (place, pipeline) in pipelines.iter().enumerate() {
        if has_text(pipeline, "name", name) {
            return Some(place);
        }
    }
    None
}

/// The items that references name, by rising digest.
fn make_files(
    alloc: Global,
    references: &Map<String, Value>,
) -> Result<Vec<(Digest, Text)>, NoMemory>
    ensures { IfOk result (λ files. files.items ≡ made_files (members_view references.now.entries)) }
{
    let mut files = Vec::new(alloc);
    for (reference, options) in references.iter() {
        add_file(alloc, reference.as_str(), options, &mut files)?;
    }
    Ok(files)
}

/// Adds an item, where the reference is a digest.
fn add_file(
    alloc: Global,
    reference: &str,
    options: &Value,
    files: &mut Vec<(Digest, Text)>,
) -> Result<(), NoMemory>
    ensures { OnOk result ((rest : Items (Items ℕ × Items ℕ)) → files.new.items ++ rest ≡ files.old.items ++ cons_option (made_file reference.now (view options.now)) rest) }
{
    let Ok(digest) = Digest::read(reference) else {
        return Ok(());
    };
    if let Some(text) = python_text(alloc, options)? {
        files.push((digest, text))?;
    }
    Ok(())
}

/// Python's text of a value, where its numbers have one.
fn python_text(alloc: Global, value: &Value) -> Result<Option<Text>, NoMemory>
    ensures { IfOk result (λ text. text ≡ py_data (view value.now)) }
{
    match py_text(alloc, value) {
        Ok(text) => Ok(Some(text)),
        Err(PyFault::NotWhole) => Ok(None),
        Err(PyFault::NoMemory) => Err(AllocError),
    }
}
