//! The shape of a manifest's objects: which members each may have.
ghost use Rattle.std.specs.Prelude.{◌≡◌, IfOk, map};
ghost use Rattle.std.specs.List.{filter};
ghost use Rattle.serde_json.specs.View.{view, items_view, members_view};
ghost use Rattle.osb_shape.specs.Firsts.{first};
ghost use Rattle.osb_shape.specs.Values.{is_object, all_members};
ghost use Rattle.osb_shape.specs.Shapes.{top_shape, pipeline_shape, stage_shape, input_shape, source_shape, item_shape, is_list_of_objects, is_object_of, is_text_or_object, is_named_so, is_nothing, has_form, is_broken, broken_names, is_known, unknown_names, offending, shape};
ghost use Rattle.osb_shape.specs.Tables.{row_of};

use crate::is_pipeline_name;
use crate::references::{is_curl, is_inline, is_one_reference, is_references};
use crate::values::{are_all_objects, are_objects, is_empty_list, is_empty_object};
use osb_base::{NoMemory, Text};
use serde_json::{Map, Value};
use std::alloc::Global;

/// What a member's value may be.
#[derive(Clone, Copy)]
pub enum Form {
    Text,
    PipelineName,
    Object,
    ListOfObjects,
    ObjectOfObjects,
    ObjectOfTextsOrObjects,
    /// References with their options, in one of three forms.
    References,
    /// The same, with one reference.
    OneReference,
    /// An empty list, or an object with no members.
    Nothing,
}

/// A member that an object has, or may have.
#[derive(Clone, Copy)]
pub struct Row {
    pub name: &'static str,
    pub form: Form,
    pub is_required: bool,
}

static TOP_ROWS: [Row; 2] = [
    Row {
        name: "pipelines",
        form: Form::ListOfObjects,
        is_required: false,
    },
    Row {
        name: "sources",
        form: Form::ObjectOfObjects,
        is_required: false,
    },
];

static PIPELINE_ROWS: [Row; 4] = [
    Row {
        name: "name",
        form: Form::PipelineName,
        is_required: true,
    },
    Row {
        name: "build",
        form: Form::Text,
        is_required: false,
    },
    Row {
        name: "runner",
        form: Form::Text,
        is_required: false,
    },
    Row {
        name: "stages",
        form: Form::ListOfObjects,
        is_required: false,
    },
];

static STAGE_ROWS: [Row; 5] = [
    Row {
        name: "type",
        form: Form::Text,
        is_required: true,
    },
    Row {
        name: "options",
        form: Form::Object,
        is_required: false,
    },
    Row {
        name: "inputs",
        form: Form::ObjectOfObjects,
        is_required: false,
    },
    Row {
        name: "devices",
        form: Form::Nothing,
        is_required: false,
    },
    Row {
        name: "mounts",
        form: Form::Nothing,
        is_required: false,
    },
];

static INPUT_ROWS: [Row; 3] = [
    Row {
        name: "type",
        form: Form::Text,
        is_required: true,
    },
    Row {
        name: "origin",
        form: Form::Text,
        is_required: true,
    },
    Row {
        name: "references",
        form: Form::References,
        is_required: true,
    },
];

static TREE_INPUT_ROWS: [Row; 3] = [
    Row {
        name: "type",
        form: Form::Text,
        is_required: true,
    },
    Row {
        name: "origin",
        form: Form::Text,
        is_required: true,
    },
    Row {
        name: "references",
        form: Form::OneReference,
        is_required: true,
    },
];

static SOURCE_ROWS: [Row; 1] = [Row {
    name: "items",
    form: Form::Object,
    is_required: false,
}];

static INLINE_ROWS: [Row; 1] = [Row {
    name: "items",
    form: Form::ObjectOfObjects,
    is_required: false,
}];

static CURL_ROWS: [Row; 1] = [Row {
    name: "items",
    form: Form::ObjectOfTextsOrObjects,
    is_required: false,
}];

static INLINE_ITEM_ROWS: [Row; 2] = [
    Row {
        name: "encoding",
        form: Form::Text,
        is_required: true,
    },
    Row {
        name: "data",
        form: Form::Text,
        is_required: true,
    },
];

/// The rows of the whole manifest, which may have other members too. Its version is asked for apart.
pub fn top_rows() -> &'static [Row]
    ensures rows { map row_of result.now ≡ top_shape.rows }
{
    &TOP_ROWS
}

pub fn pipeline_rows() -> &'static [Row]
    ensures rows { map row_of result.now ≡ pipeline_shape.rows }
{
    &PIPELINE_ROWS
}

pub fn stage_rows() -> &'static [Row]
    ensures rows { map row_of result.now ≡ stage_shape.rows }
{
    &STAGE_ROWS
}

pub fn input_rows(is_tree: bool) -> &'static [Row]
    ensures rows { map row_of result.now ≡ (input_shape is_tree).rows }
{
    if is_tree {
        &TREE_INPUT_ROWS
    } else {
        &INPUT_ROWS
    }
}

/// The rows of a source of a name, which may have other members too.
pub fn source_rows(source: &str) -> &'static [Row]
    ensures rows { map row_of result.now ≡ (source_shape source.now).rows }
{
    if is_inline(source) {
        return &INLINE_ROWS;
    }
    if is_curl(source) {
        return &CURL_ROWS;
    }
    &SOURCE_ROWS
}

/// The rows of an item of a source, which may have other members too.
pub fn item_rows(source: &str) -> &'static [Row]
    ensures rows { map row_of result.now ≡ (item_shape source.now).rows }
{
    if is_inline(source) {
        &INLINE_ITEM_ROWS
    } else {
        &[]
    }
}

/// The first member at which an object has not its shape: in the order of the rows, and then by name those that they
/// lack, unless it may have others.
pub fn first_offending(
    alloc: Global,
    rows: &[Row],
    is_open: bool,
    value: &Value,
) -> Result<Option<Text>, NoMemory>
    ensures offending { IfOk result (λ name. name ≡ first (offending (shape (map row_of rows.now) is_open) (view value.now))) }
{
    let Value::Object(members) = value else {
        return Ok(None);
    };
    if let Some(name) = first_broken(alloc, rows, value)? {
        return Ok(Some(name));
    }
    if is_open {
        return Ok(None);
    }
    first_unknown(alloc, rows, members)
}

fn first_broken(alloc: Global, rows: &[Row], value: &Value) -> Result<Option<Text>, NoMemory>
    ensures { IfOk result (λ name. name ≡ first (broken_names (view value.now) (map row_of rows.now))) }
{
    for row in rows {
        if is_broken(alloc, *row, value)? {
            return Ok(Some(Text::new(alloc, row.name)?));
        }
    }
    Ok(None)
}

fn is_broken(alloc: Global, row: Row, value: &Value) -> Result<bool, NoMemory>
    ensures { IfOk result (λ broken. broken ≡ is_broken (view value.now) (row_of row)) }
{
    match value.get(row.name) {
        Some(found) => Ok(!has_form(alloc, row.form, found)?),
        None => Ok(row.is_required),
    }
}

fn has_form(alloc: Global, form: Form, value: &Value) -> Result<bool, NoMemory>
    ensures { IfOk result (λ has. has ≡ has_form form (view value.now)) }
{
    match form {
        Form::Text => Ok(value.is_string()),
        Form::PipelineName => Ok(is_named_so(value)),
        Form::Object => Ok(value.is_object()),
        Form::ListOfObjects => Ok(is_list_of_objects(value)),
        Form::ObjectOfObjects => Ok(is_object_of_objects(value)),
        Form::ObjectOfTextsOrObjects => Ok(is_object_of_texts_or_objects(value)),
        Form::References => Ok(is_references(value)),
        Form::OneReference => is_one_reference(alloc, value),
        Form::Nothing => Ok(is_nothing(value)),
    }
}

fn is_named_so(value: &Value) -> bool
    ensures { result ≡ is_named_so (view value.now) }
{
    match value {
        Value::String(text) => is_pipeline_name(text.as_str()),
        _ => false,
    }
}

fn is_list_of_objects(value: &Value) -> bool
    ensures { result ≡ is_list_of_objects (view value.now) }
{
    match value {
        Value::Array(items) => are_objects(items),
        _ => false,
    }
}

fn is_object_of_objects(value: &Value) -> bool
    ensures { result ≡ is_object_of is_object (view value.now) }
{
    match value {
        Value::Object(members) => are_all_objects(members),
        _ => false,
    }
}

fn is_object_of_texts_or_objects(value: &Value) -> bool
    ensures { result ≡ is_object_of is_text_or_object (view value.now) }
{
    match value {
        Value::Object(members) => are_texts_or_objects(members),
        _ => false,
    }
}

fn are_texts_or_objects(members: &Map<String, Value>) -> bool
    ensures { result ≡ all_members is_text_or_object (members_view members.now.entries) }
{
    for (_, member) in members.iter() {
        if !is_text_or_object(member) {
            return false;
        }
    }
    true
}

fn is_text_or_object(value: &Value) -> bool
    ensures { result ≡ is_text_or_object (view value.now) }
{
    value.is_string() || value.is_object()
}

fn is_nothing(value: &Value) -> bool
    ensures { result ≡ is_nothing (view value.now) }
{
    match value {
        Value::Array(items) => is_empty_list(items),
        Value::Object(members) => is_empty_object(members),
        _ => false,
    }
}

fn first_unknown(
    alloc: Global,
    rows: &[Row],
    members: &Map<String, Value>,
) -> Result<Option<Text>, NoMemory>
    ensures { IfOk result (λ name. name ≡ first (unknown_names (map row_of rows.now) (members_view members.now.entries))) }
{
    for (name, _) in members.iter() {
        if !is_known(rows, name.as_str()) {
            return Ok(Some(Text::new(alloc, name.as_str())?));
        }
    }
    Ok(None)
}

fn is_known(rows: &[Row], name: &str) -> bool
    ensures { result ≡ is_known (map row_of rows.now) name.now }
{
    for row in rows {
        if row.name == name {
            return true;
        }
    }
    false
}
