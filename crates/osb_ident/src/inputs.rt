//! Takes a stage's inputs into a hasher.
ghost use Rattle.std.specs.Prelude.{◌≡◌, [], ◌∷◌, Some, codes, IfOk, OnOk, option_copied};
ghost use Rattle.sha2.specs.Sha256.{sha256};
ghost use Rattle.osb_ident.specs.Hashed.{Takes};
ghost use Rattle.osb_ident.specs.Idents.{id_text, object_text, pipeline_id, reference, file_entries, input_parts, input_text, inputs_text};

use crate::hashing::{take_member, take_quoted, take_text};
use osb_base::{Digest, List, NoMemory, Text};
use osb_manifest::Input;
use osb_pyjson::py_string;
use sha2::{Digest as Hashing, Sha256};
use std::alloc::Global;

/// The identifier of the pipeline at a place: that of its last stage.
pub fn pipeline_id(ids: &[List<Digest>], place: usize) -> Option<&Digest>
    ensures { option_copied result ≡ pipeline_id ids.now place }
{
    ids.get(place)?.as_slice().last()
}

/// How a pipeline is referred to.
fn reference(alloc: Global, pipeline: Option<&Digest>) -> Result<Text, NoMemory>
    ensures { IfOk result (λ text. text ≡ reference (option_copied pipeline.entry)) }
{
    match pipeline {
        Some(id) => id.hex(alloc),
        None => Text::new(alloc, "null"),
    }
}

fn take_tree(
    alloc: Global,
    hasher: &mut Sha256,
    pipeline: Option<&Digest>,
    options: &str,
) -> Result<(), NoMemory>
    ensures { OnOk result (Takes hasher.old hasher.new
        (input_parts (codes "org.osbuild.tree") (codes "org.osbuild.pipeline")
        ((reference (option_copied pipeline.entry), options.now) ∷ []))) }
{
    take_quoted(alloc, hasher, "org.osbuild.tree")?;
    take_quoted(alloc, hasher, "org.osbuild.pipeline")?;
    let key = reference(alloc, pipeline)?;
    take_text(hasher, "{");
    take_member(alloc, hasher, true, key.as_str(), options)?;
    take_text(hasher, "}");
    take_text(hasher, "{}");
    Ok(())
}

fn take_references(
    alloc: Global,
    hasher: &mut Sha256,
    files: &[(Digest, Text)],
) -> Result<(), NoMemory>
    ensures { OnOk result (Takes hasher.old hasher.new (object_text (file_entries files.now))) }
{
    take_text(hasher, "{");
    let mut is_first = true;
    for (digest, options) in files {
        let key = digest.text(alloc)?;
        take_member(alloc, hasher, is_first, key.as_str(), options.as_str())?;
        is_first = false;
    }
    take_text(hasher, "}");
    Ok(())
}

fn take_files(alloc: Global, hasher: &mut Sha256, files: &[(Digest, Text)]) -> Result<(), NoMemory>
    ensures { OnOk result (Takes hasher.old hasher.new
        (input_parts (codes "org.osbuild.files") (codes "org.osbuild.source") (file_entries files.now))) }
{
    take_quoted(alloc, hasher, "org.osbuild.files")?;
    take_quoted(alloc, hasher, "org.osbuild.source")?;
    take_references(alloc, hasher, files)?;
    take_text(hasher, "{}");
    Ok(())
}

#[tactic(auto, unfolding(crate::specs::Idents::input_text))]
fn take_input(
    alloc: Global,
    hasher: &mut Sha256,
    ids: &[List<Digest>],
    input: &Input,
) -> Result<(), NoMemory>
    ensures { OnOk result (Takes hasher.old hasher.new (input_text ids.now input.now)) }
{
    match input {
        Input::Tree(place, options) => {
            take_tree(alloc, hasher, pipeline_id(ids, *place), options.as_str())
        }
        Input::Files(files) => take_files(alloc, hasher, files.as_slice()),
    }
}

fn input_id(alloc: Global, ids: &[List<Digest>], input: &Input) -> Result<Digest, NoMemory>
    ensures { IfOk result (λ id. id ≡ sha256 (input_text ids.now input.now)) }
{
    let mut hasher = Sha256::new();
    take_input(alloc, &mut hasher, ids, input)?;
    Ok(Digest::of(hasher.finalize()))
}

/// Python's text of an input's identifier.
#[tactic(auto, unfolding(crate::specs::Idents::id_text))]
fn input_id_text(alloc: Global, ids: &[List<Digest>], input: &Input) -> Result<Text, NoMemory>
    ensures { IfOk result (λ text. text ≡ id_text (Some (sha256 (input_text ids.now input.now)))) }
{
    let id = input_id(alloc, ids, input)?;
    py_string(alloc, id.hex(alloc)?.as_str())
}

/// Takes the map from the names of inputs to their identifiers; nothing where there are none.
pub fn take_inputs(
    alloc: Global,
    hasher: &mut Sha256,
    ids: &[List<Digest>],
    inputs: &[(Text, Input)],
) -> Result<(), NoMemory>
    ensures { OnOk result (Takes hasher.old hasher.new (inputs_text ids.now inputs.now)) }
{
    if inputs.is_empty() {
        return Ok(());
    }
    take_text(hasher, "{");
    let mut is_first = true;
    for (name, input) in inputs {
        let value = input_id_text(alloc, ids, input)?;
        take_member(alloc, hasher, is_first, name.as_str(), value.as_str())?;
        is_first = false;
    }
    take_text(hasher, "}");
    Ok(())
}
