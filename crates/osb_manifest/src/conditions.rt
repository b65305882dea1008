//! What may be wrong with a manifest's objects, and where: a function for each condition.
ghost use Rattle.std.specs.Prelude.{◌≡◌, ℕ, not, ◌&&◌, codes, is_some, IfOk};
ghost use Rattle.std.specs.List.{filter_map, list_any};
ghost use Rattle.std.specs.Bool.{◌==◌};
ghost use Rattle.std.specs.Cmp.Lexicographic.{pointwise};
ghost use Rattle.serde_json.specs.View.{view, items_view, members_view};
ghost use Rattle.osb_shape.specs.Firsts.{first};
ghost use Rattle.osb_shape.specs.Numbers.{bad_members};
ghost use Rattle.osb_shape.specs.Places.{place_text};
ghost use Rattle.osb_shape.specs.References.{references_at, is_files_input};
ghost use Rattle.osb_shape.specs.Shapes.{offending};
ghost use Rattle.osb_shape.specs.Values.{list_of, members_at};
ghost use Rattle.osb_manifest.specs.Seen.{object_of};
ghost use Rattle.osb_manifest.specs.Walks.{at_stage, name_of, is_taken, is_lost, is_build_lost, are_digests, value_of, place_of, shape_of, applies, not_object, other_version, too_many, wrong_members, wrong_numbers, duplicate, unknown_reference, unknown_stage, unknown_input, unknown_source, bad_checksum, other_encoding, wrong_options};

use crate::Refusal;
use crate::objects::Object;
use crate::stages::read_kind;
use osb_base::{Digest, NoMemory, Text};
use osb_recipe::KindFault;
use osb_shape::bad_number;
use osb_shape::places::{
    input_place, item_place, pipeline_place, place_in_options, place_in_pipeline, place_in_stage,
    place_in_top, source_place, stage_place, top_place,
};
use osb_shape::references::{
    is_curl, is_files_input, is_inline, is_tree_input, references_at, referred, referred_first,
};
use osb_shape::shapes::{
    first_offending, input_rows, item_rows, pipeline_rows, source_rows, stage_rows, top_rows,
};
use osb_shape::values::{has_text, is_longer, list_at, members_at, object_at, text_at};
use serde_json::{Map, Value};
use std::alloc::Global;

const MOST_PIPELINES: usize = 256;

const MOST_STAGES: usize = 1024;

/// What may be wrong with an object of a manifest.
#[derive(Clone, Copy)]
pub enum Condition {
    /// 3
    NoObject,
    /// 4
    OtherVersion,
    /// 5
    TooMany,
    /// 6
    WrongMember,
    /// 7
    BadNumber,
    /// 8
    Duplicate,
    /// 9
    UnknownReference,
    /// 10
    UnknownStage,
    /// 11
    UnknownInput,
    /// 12
    UnknownSource,
    /// 13
    BadChecksum,
    /// 14
    OtherEncoding,
    /// 15
    WrongOptions,
}

/// The first refusal of an object for a condition.
pub fn applies(
    alloc: Global,
    whole: &Value,
    condition: Condition,
    here: Object,
) -> Result<Option<Refusal>, NoMemory>
    ensures { IfOk result (λ found. found ≡ first (applies (view whole.now) condition (object_of here.entry))) }
{
    match condition {
        Condition::NoObject => Ok(not_object(alloc, here)),
        Condition::OtherVersion => Ok(other_version(alloc, here)),
        Condition::TooMany => too_many(alloc, here),
        Condition::WrongMember => wrong_member(alloc, here),
        Condition::BadNumber => wrong_number(alloc, here),
        Condition::Duplicate => duplicate(alloc, whole, here),
        Condition::UnknownReference => unknown_reference(alloc, whole, here),
        Condition::UnknownStage => unknown_stage(alloc, here),
        Condition::UnknownInput => unknown_input(alloc, here),
        Condition::UnknownSource => unknown_source(alloc, here),
        Condition::BadChecksum => bad_checksum(alloc, here),
        Condition::OtherEncoding => other_encoding(alloc, here),
        Condition::WrongOptions => wrong_options(alloc, here),
    }
}

fn not_object(alloc: Global, here: Object) -> Option<Refusal>
    ensures { result ≡ first (not_object (object_of here.entry)) }
{
    match here {
        Object::Top(value) if !value.is_object() => Some(Refusal::NotObject(top_place(alloc))),
        _ => None,
    }
}

fn other_version(alloc: Global, here: Object) -> Option<Refusal>
    ensures { result ≡ first (other_version (object_of here.entry)) }
{
    match here {
        Object::Top(value) if !has_text(value, "version", "2") => {
            Some(Refusal::Version(top_place(alloc)))
        }
        _ => None,
    }
}

fn too_many(alloc: Global, here: Object) -> Result<Option<Refusal>, NoMemory>
    ensures { IfOk result (λ found. found ≡ first (too_many (object_of here.entry))) }
{
    match here {
        Object::Top(value) if is_longer(list_at(value, "pipelines"), MOST_PIPELINES) => Ok(Some(
            Refusal::TooMany(place_in_top(alloc, "pipelines")?),
        )),
        Object::Pipeline(i, value) if is_longer(list_at(value, "stages"), MOST_STAGES) => Ok(Some(
            Refusal::TooMany(place_in_pipeline(alloc, i, "stages")?),
        )),
        _ => Ok(None),
    }
}

fn wrong_member(alloc: Global, here: Object) -> Result<Option<Refusal>, NoMemory>
    ensures { IfOk result (λ found. found ≡ first (wrong_members (object_of here.entry))) }
{
    match first_wrong(alloc, here)? {
        Some(name) => Ok(Some(Refusal::Member(place_of(alloc, here)?, name))),
        None => Ok(None),
    }
}

/// The first member at which an object has not its shape.
fn first_wrong(alloc: Global, here: Object) -> Result<Option<Text>, NoMemory>
    ensures { IfOk result (λ name. name ≡ first (offending (shape_of (object_of here.entry)) (value_of (object_of here.entry)))) }
{
    match here {
        Object::Top(value) => first_offending(alloc, top_rows(), true, value),
        Object::Pipeline(_, value) => first_offending(alloc, pipeline_rows(), false, value),
        Object::Stage(_, _, value) => first_offending(alloc, stage_rows(), false, value),
        Object::Input(_, _, _, value) => {
            first_offending(alloc, input_rows(is_tree_input(value)), false, value)
        }
        Object::Source(name, value) => first_offending(alloc, source_rows(name), true, value),
        Object::Item(source, _, value) => first_offending(alloc, item_rows(source), true, value),
    }
}

/// The place of an object.
fn place_of(alloc: Global, here: Object) -> Result<Text, NoMemory>
    ensures { IfOk result (λ place. place ≡ place_text (place_of (object_of here.entry))) }
{
    match here {
        Object::Top(_) => Ok(top_place(alloc)),
        Object::Pipeline(i, _) => pipeline_place(alloc, i),
        Object::Stage(i, j, _) => stage_place(alloc, i, j),
        Object::Input(i, j, name, _) => input_place(alloc, i, j, name),
        Object::Source(name, _) => source_place(alloc, name),
        Object::Item(source, name, _) => item_place(alloc, source, name),
    }
}

fn wrong_number(alloc: Global, here: Object) -> Result<Option<Refusal>, NoMemory>
    ensures { IfOk result (λ found. found ≡ first (wrong_numbers (object_of here.entry))) }
{
    match here {
        Object::Stage(i, j, value) => wrong_option(alloc, i, j, value),
        Object::Input(i, j, name, value) if has_bad_number(alloc, value)? => {
            Ok(Some(Refusal::BadNumber(input_place(alloc, i, j, name)?)))
        }
        _ => Ok(None),
    }
}

/// The refusal of the first number in a stage's options that can't be kept.
fn wrong_option(
    alloc: Global,
    i: usize,
    j: usize,
    stage: &Value,
) -> Result<Option<Refusal>, NoMemory>
    ensures { IfOk result (λ found. found ≡ first (wrong_numbers (at_stage i j (view stage.now)))) }
{
    let empty = Value::Object(Map::new(alloc));
    match bad_number(alloc, object_at(stage, "options", &empty))? {
        Some(rest) => Ok(Some(Refusal::BadNumber(place_in_options(alloc, i, j, rest.as_str())?))),
        None => Ok(None),
    }
}

/// Whether a number in the options of an input's references can't be kept.
fn has_bad_number(alloc: Global, input: &Value) -> Result<bool, NoMemory>
    ensures { IfOk result (λ has. has ≡ is_some (first (bad_members (references_at (view input.now))))) }
{
    let references = Value::Object(references_at(alloc, input)?);
    Ok(bad_number(alloc, &references)?.is_some())
}

fn duplicate(alloc: Global, whole: &Value, here: Object) -> Result<Option<Refusal>, NoMemory>
    ensures { IfOk result (λ found. found ≡ first (duplicate (view whole.now) (object_of here.entry))) }
{
    let Object::Pipeline(i, value) = here else {
        return Ok(None);
    };
    match text_at(value, "name") {
        Some(name) if is_taken(list_at(whole, "pipelines"), i, name) => {
            Ok(Some(Refusal::DuplicatePipeline(pipeline_place(alloc, i)?)))
        }
        _ => Ok(None),
    }
}

/// Whether one of the pipelines before a place has the name.
fn is_taken(pipelines: &[Value], i: usize, name: &str) -> bool
    ensures { result ≡ is_taken (list_of (items_view pipelines.now)) i name.now }
{
    has_name(&pipelines[..i.min(pipelines.len())], name)
}

fn has_name(pipelines: &[Value], name: &str) -> bool
    ensures { result ≡ list_any (pointwise ◌==◌ name.now) (filter_map name_of (list_of (items_view pipelines.now))) }
{
    for pipeline in pipelines {
        if has_text(pipeline, "name", name) {
            return true;
        }
    }
    false
}

fn unknown_reference(
    alloc: Global,
    whole: &Value,
    here: Object,
) -> Result<Option<Refusal>, NoMemory>
    ensures { IfOk result (λ found. found ≡ first (unknown_reference (view whole.now) (object_of here.entry))) }
{
    match here {
        Object::Pipeline(i, value) if is_build_lost(whole, i, value) => Ok(Some(
            Refusal::UnknownReference(place_in_pipeline(alloc, i, "build")?),
        )),
        Object::Input(i, j, name, value) if is_lost(alloc, whole, i, value)? => {
            Ok(Some(Refusal::UnknownReference(input_place(alloc, i, j, name)?)))
        }
        _ => Ok(None),
    }
}

/// Whether an input is the tree of no pipeline before its own.
fn is_lost(alloc: Global, whole: &Value, i: usize, input: &Value) -> Result<bool, NoMemory>
    ensures { IfOk result (λ lost. lost ≡ is_lost (view whole.now) i (view input.now)) }
{
    if !is_tree_input(input) {
        return Ok(false);
    }
    let references = references_at(alloc, input)?;
    match referred_first(&references) {
        Some(name) => Ok(!is_taken(list_at(whole, "pipelines"), i, name)),
        None => Ok(true),
    }
}

/// Whether a pipeline has a `build` that names no pipeline before its own.
fn is_build_lost(whole: &Value, i: usize, pipeline: &Value) -> bool
    ensures { result ≡ is_build_lost (view whole.now) i (view pipeline.now) }
{
    let Some(reference) = text_at(pipeline, "build") else {
        return false;
    };
    match referred(reference) {
        Some(name) => !is_taken(list_at(whole, "pipelines"), i, name),
        None => true,
    }
}

fn unknown_stage(alloc: Global, here: Object) -> Result<Option<Refusal>, NoMemory>
    ensures { IfOk result (λ found. found ≡ first (unknown_stage (object_of here.entry))) }
{
    let Object::Stage(i, j, value) = here else {
        return Ok(None);
    };
    match read_kind(alloc, value)? {
        Some(Err(KindFault::UnknownStage)) => {
            Ok(Some(Refusal::UnknownStage(stage_place(alloc, i, j)?)))
        }
        _ => Ok(None),
    }
}

fn unknown_input(alloc: Global, here: Object) -> Result<Option<Refusal>, NoMemory>
    ensures { IfOk result (λ found. found ≡ first (unknown_input (object_of here.entry))) }
{
    match here {
        Object::Input(i, j, name, value) if !is_tree_input(value) && !is_files_input(value) => {
            Ok(Some(Refusal::UnknownInput(input_place(alloc, i, j, name)?)))
        }
        _ => Ok(None),
    }
}

fn unknown_source(alloc: Global, here: Object) -> Result<Option<Refusal>, NoMemory>
    ensures { IfOk result (λ found. found ≡ first (unknown_source (object_of here.entry))) }
{
    match here {
        Object::Source(name, _) if !is_inline(name) && !is_curl(name) => {
            Ok(Some(Refusal::UnknownSource(source_place(alloc, name)?)))
        }
        _ => Ok(None),
    }
}

fn bad_checksum(alloc: Global, here: Object) -> Result<Option<Refusal>, NoMemory>
    ensures { IfOk result (λ found. found ≡ first (bad_checksum (object_of here.entry))) }
{
    match here {
        Object::Input(i, j, name, value) if has_bad_reference(alloc, value)? => {
            Ok(Some(Refusal::BadChecksum(input_place(alloc, i, j, name)?)))
        }
        Object::Source(name, value) if !lists_digests(value) => {
            Ok(Some(Refusal::BadChecksum(source_place(alloc, name)?)))
        }
        _ => Ok(None),
    }
}

/// Whether an input is files, one of which is referred to by what is no digest.
fn has_bad_reference(alloc: Global, input: &Value) -> Result<bool, NoMemory>
    ensures { IfOk result (λ has. has ≡ (is_files_input (view input.now) && not (are_digests (references_at (view input.now))))) }
{
    if !is_files_input(input) {
        return Ok(false);
    }
    let references = references_at(alloc, input)?;
    Ok(!are_digests(&references))
}

/// Whether a source lists its items by digests.
fn lists_digests(source: &Value) -> bool
    ensures { result ≡ are_digests (members_at (codes "items") (view source.now)) }
{
    match members_at(source, "items") {
        Some(items) => are_digests(items),
        None => true,
    }
}

fn are_digests(members: &Map<String, Value>) -> bool
    ensures { result ≡ are_digests (members_view members.now.entries) }
{
    for (name, _) in members.iter() {
        if Digest::read(name.as_str()).is_err() {
            return false;
        }
    }
    true
}

fn other_encoding(alloc: Global, here: Object) -> Result<Option<Refusal>, NoMemory>
    ensures { IfOk result (λ found. found ≡ first (other_encoding (object_of here.entry))) }
{
    match here {
        Object::Item(source, name, value)
            if is_inline(source) && !has_text(value, "encoding", "base64") => {
            Ok(Some(Refusal::Encoding(item_place(alloc, source, name)?)))
        }
        _ => Ok(None),
    }
}

fn wrong_options(alloc: Global, here: Object) -> Result<Option<Refusal>, NoMemory>
    ensures { IfOk result (λ found. found ≡ first (wrong_options (object_of here.entry))) }
{
    let Object::Stage(i, j, value) = here else {
        return Ok(None);
    };
    match read_kind(alloc, value)? {
        Some(Err(KindFault::Options(fault))) => Ok(Some(Refusal::Options(
            place_in_stage(alloc, i, j, "options")?,
            fault,
        ))),
        _ => Ok(None),
    }
}
