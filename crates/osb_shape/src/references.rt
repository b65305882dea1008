//! What an input refers to, and what inputs and sources there are.
ghost use Rattle.std.specs.Prelude.{◌≡◌, codes, Some, IfOk, OnOk, option_map};
ghost use Rattle.serde_json.specs.Data.{object, no_members};
ghost use Rattle.serde_json.specs.Data.{put as put_member};
ghost use Rattle.serde_json.specs.Find.{get, as_object};
ghost use Rattle.serde_json.specs.View.{view, items_view, members_view};
ghost use Rattle.osb_shape.specs.Values.{is_object, is_absent_or, there_is, text_at, members_in, members_at, all_items, is_single};
ghost use Rattle.osb_shape.specs.References.{is_string, is_id_or_options, has_id_alone, is_reference, is_reference_list, is_references, with_id, with_reference, with_references, references_in, references_at, is_one_reference, is_of, is_tree_input, is_files_input, is_inline, is_curl, referred, referred_first};

use crate::values::{are_all_objects, has_text, object_at, text_at};
use osb_base::NoMemory;
use serde_json::{Map, Value, put};
use std::alloc::Global;

/// Whether a value is a list of texts, a list of objects with a text `id` each, or an object from references to options.
pub(crate) fn is_references(value: &Value) -> bool
    ensures { result ≡ is_references (view value.now) }
{
    match value {
        Value::Array(items) => is_reference_list(items),
        Value::Object(members) => are_all_objects(members),
        _ => false,
    }
}

fn is_reference_list(items: &[Value]) -> bool
    ensures { result ≡ is_reference_list (items_view items.now) }
{
    are_texts(items) || are_references(items)
}

fn are_texts(items: &[Value]) -> bool
    ensures { result ≡ all_items is_string (items_view items.now) }
{
    for item in items {
        if !item.is_string() {
            return false;
        }
    }
    true
}

fn are_references(items: &[Value]) -> bool
    ensures { result ≡ all_items is_reference (items_view items.now) }
{
    for item in items {
        if !is_reference(item) {
            return false;
        }
    }
    true
}

fn is_reference(value: &Value) -> bool
    ensures { result ≡ is_reference (view value.now) }
{
    text_at(value, "id").is_some() && has_right_options(value) && has_id_alone(value)
}

fn has_right_options(value: &Value) -> bool
    ensures { result ≡ is_absent_or is_object (get (codes "options") (view value.now)) }
{
    match value.get("options") {
        Some(options) => options.is_object(),
        None => true,
    }
}

fn has_id_alone(value: &Value) -> bool
    ensures { result ≡ there_is has_id_alone (as_object (view value.now)) }
{
    match value {
        Value::Object(members) => are_id_or_options(members),
        _ => false,
    }
}

fn are_id_or_options(members: &Map<String, Value>) -> bool
    ensures { result ≡ has_id_alone (members_view members.now.entries) }
{
    for (name, _) in members.iter() {
        if !is_id_or_options(name.as_str()) {
            return false;
        }
    }
    true
}

fn is_id_or_options(name: &str) -> bool
    ensures { result ≡ is_id_or_options name.now }
{
    name == "id" || name == "options"
}

pub(crate) fn is_one_reference(alloc: Global, value: &Value) -> Result<bool, NoMemory>
    ensures { IfOk result (λ one. one ≡ is_one_reference (view value.now)) }
{
    if !is_references(value) {
        return Ok(false);
    }
    let references = references_in(alloc, Some(value))?;
    Ok(is_single(&references))
}

/// The options of an input's references. Of equal references the last one counts, and options that are absent are empty.
pub fn references_at(alloc: Global, input: &Value) -> Result<Map<String, Value>, NoMemory>
    ensures references { IfOk result (λ references. members_view references.entries ≡ references_at (view input.now)) }
{
    references_in(alloc, input.get("references"))
}

fn references_in(alloc: Global, value: Option<&Value>) -> Result<Map<String, Value>, NoMemory>
    ensures { IfOk result (λ references. members_view references.entries ≡ references_in (option_map (λ v. view v.now) value.entry)) }
{
    match value {
        Some(Value::Array(items)) => listed_references(alloc, items),
        Some(value) => copied_members(alloc, value),
        None => Ok(Map::new(alloc)),
    }
}

/// The members of an object; none of another value.
fn copied_members(alloc: Global, value: &Value) -> Result<Map<String, Value>, NoMemory>
    ensures { IfOk result (λ members. members_view members.entries ≡ members_in (Some (view value.now))) }
{
    match value.clone()? {
        Value::Object(members) => Ok(members),
        _ => Ok(Map::new(alloc)),
    }
}

fn listed_references(alloc: Global, items: &[Value]) -> Result<Map<String, Value>, NoMemory>
    ensures { IfOk result (λ references. members_view references.entries ≡ with_references no_members (items_view items.now)) }
{
    let mut references = Map::new(alloc);
    for item in items {
        add_reference(alloc, &mut references, item)?;
    }
    Ok(references)
}

fn add_reference(
    alloc: Global,
    references: &mut Map<String, Value>,
    item: &Value,
) -> Result<(), NoMemory>
    ensures { OnOk result (members_view references.new.entries ≡ with_reference (members_view references.old.entries) (view item.now)) }
{
    match item {
        Value::String(id) => put_options(
            alloc,
            references,
            id.as_str(),
            &Value::Object(Map::new(alloc)),
        ),
        Value::Object(_) => add_object(alloc, references, item),
        _ => Ok(()),
    }
}

fn add_object(
    alloc: Global,
    references: &mut Map<String, Value>,
    item: &Value,
) -> Result<(), NoMemory>
    ensures { OnOk result (members_view references.new.entries ≡ with_id (members_view references.old.entries) (text_at (codes "id") (view item.now)) (object (members_at (codes "options") (view item.now)))) }
{
    let Some(id) = text_at(item, "id") else {
        return Ok(());
    };
    let empty = Value::Object(Map::new(alloc));
    put_options(alloc, references, id, object_at(item, "options", &empty))
}

fn put_options(
    alloc: Global,
    references: &mut Map<String, Value>,
    id: &str,
    options: &Value,
) -> Result<(), NoMemory>
    ensures { OnOk result (members_view references.new.entries ≡ put_member id.now (view options.now) (members_view references.old.entries)) }
{
    put(references, alloc, id, options.clone()?)
}

/// Whether an object has one member.
pub fn is_single(members: &Map<String, Value>) -> bool
    ensures single { result ≡ is_single (members_view members.now.entries) }
{
    members.len() == 1
}

/// Whether an input is the tree of a pipeline.
pub fn is_tree_input(input: &Value) -> bool
    ensures tree { result ≡ is_tree_input (view input.now) }
{
    has_text(input, "type", "org.osbuild.tree") && has_text(input, "origin", "org.osbuild.pipeline")
}

/// Whether an input is items of sources.
pub fn is_files_input(input: &Value) -> bool
    ensures files { result ≡ is_files_input (view input.now) }
{
    has_text(input, "type", "org.osbuild.files") && has_text(input, "origin", "org.osbuild.source")
}

/// Whether a source holds its items itself.
pub fn is_inline(source: &str) -> bool
    ensures inline { result ≡ is_inline source.now }
{
    "org.osbuild.inline" == source
}

/// Whether a source lists items that are to be had elsewhere.
pub fn is_curl(source: &str) -> bool
    ensures curl { result ≡ is_curl source.now }
{
    "org.osbuild.curl" == source
}

/// What stands behind `name:`, where that begins a reference.
pub fn referred(reference: &str) -> Option<&str>
    ensures name { option_map (λ name. name.now) result ≡ referred reference.now }
{
    reference.strip_prefix("name:")
}

/// The pipeline that the first of some references names.
pub fn referred_first(references: &Map<String, Value>) -> Option<&str>
    ensures name { option_map (λ name. name.now) result ≡ referred_first (members_view references.now.entries) }
{
    let (reference, _) = references.iter().next()?;
    referred(reference.as_str())
}
