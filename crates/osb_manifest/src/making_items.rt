//! The items that a manifest lists, from its value.
ghost use Rattle.std.specs.Prelude.{◌≡◌, ℕ, ◌++◌, List as Items, codes, Some, IfOk, OnOk, option_and_then};
ghost use Rattle.std.specs.List.{cons_option};
ghost use Rattle.serde_json.specs.Data.{object, no_members};
ghost use Rattle.serde_json.specs.Find.{get};
ghost use Rattle.serde_json.specs.View.{view, members_view};
ghost use Rattle.osb_shape.specs.Values.{members_in};
ghost use Rattle.osb_manifest.specs.Manifests.{made_held, made_inline, made_curl, made_manifest};

use osb_base::{Digest, List, NoMemory, Text};
use osb_shape::values::{object_at, text_at};
use osb_sources::Items as SourceItems;
use serde_json::{Map, Value};
use std::alloc::Global;

/// The items of a manifest, by its whole value.
pub fn make_items(alloc: Global, whole: &Value) -> Result<SourceItems, NoMemory>
    ensures { IfOk result (λ items. items ≡ (made_manifest (view whole.now)).items) }
{
    let empty = Value::Object(Map::new(alloc));
    let sources = object_at(whole, "sources", &empty);
    Ok(SourceItems {
        inline: List::new(make_inline(alloc, items_of(sources, "org.osbuild.inline", &empty))?),
        curl: List::new(make_curl(alloc, items_of(sources, "org.osbuild.curl", &empty))?),
    })
}

/// The items of a source, as an object; an empty one where there is none.
fn items_of<'a>(sources: &'a Value, source: &str, empty: &'a Value) -> &'a Value
    requires { view empty.now ≡ object no_members }
    ensures { view result.now ≡ object (members_in (option_and_then (get (codes "items")) (get source.now (view sources.now)))) }
{
    match sources.get(source) {
        Some(source) => object_at(source, "items", empty),
        None => empty,
    }
}

fn make_inline(alloc: Global, items: &Value) -> Result<Vec<(Digest, Text)>, NoMemory>
    ensures { IfOk result (λ held. held.items ≡ made_inline (members_in (Some (view items.now)))) }
{
    match items {
        Value::Object(items) => held_items(alloc, items),
        _ => Ok(Vec::new(alloc)),
    }
}

fn held_items(alloc: Global, items: &Map<String, Value>) -> Result<Vec<(Digest, Text)>, NoMemory>
    ensures { IfOk result (λ held. held.items ≡ made_inline (members_view items.now.entries)) }
{
    let mut held = Vec::new(alloc);
    for (key, item) in items.iter() {
        add_held(alloc, key.as_str(), item, &mut held)?;
    }
    Ok(held)
}

/// Adds an item that the manifest holds, where it is one.
fn add_held(
    alloc: Global,
    key: &str,
    item: &Value,
    held: &mut Vec<(Digest, Text)>,
) -> Result<(), NoMemory>
    ensures { OnOk result ((rest : Items (Items ℕ × Items ℕ)) → held.new.items ++ rest ≡ held.old.items ++ cons_option (made_held key.now (view item.now)) rest) }
{
    let Ok(digest) = Digest::read(key) else {
        return Ok(());
    };
    if let Some(text) = text_at(item, "data") {
        held.push((digest, Text::new(alloc, text)?))?;
    }
    Ok(())
}

fn make_curl(alloc: Global, items: &Value) -> Result<Vec<Digest>, NoMemory>
    ensures { IfOk result (λ digests. digests.items ≡ made_curl (members_in (Some (view items.now)))) }
{
    match items {
        Value::Object(items) => listed_digests(alloc, items),
        _ => Ok(Vec::new(alloc)),
    }
}

fn listed_digests(alloc: Global, items: &Map<String, Value>) -> Result<Vec<Digest>, NoMemory>
    ensures { IfOk result (λ digests. digests.items ≡ made_curl (members_view items.now.entries)) }
{
    let mut digests = Vec::new(alloc);
    for (key, _) in items.iter() {
        if let Ok(digest) = Digest::read(key.as_str()) {
            digests.push(digest)?;
        }
    }
    Ok(digests)
}
