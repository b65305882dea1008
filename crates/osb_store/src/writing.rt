//! Writing a store.
ghost use Rattle.std.specs.Prelude.{◌≡◌, ◌++◌, IfOk, OnOk};
ghost use Rattle.osb_store.specs.Fields.{field};
ghost use Rattle.osb_store.specs.Texts.{recipe_text, entry_text, list_text, body_text, store_text};

use crate::Store;
use crate::texts::{put_entry, put_field, put_number, put_recipe};
use osb_base::{Bytes, NoMemory};
use osb_cache::Stored;
use osb_recipe::Recipe;
use osb_tree::Chunk;
use sha2::{Digest, Sha256};
use std::alloc::Global;

/// The store's text.
#[tactic(auto, unfolding(crate::specs::Texts::headed, crate::specs::Texts::sealed))]
pub fn write_store(alloc: Global, store: &Store) -> Result<Bytes, NoMemory>
    ensures text { IfOk result (λ text. text ≡ store_text store.now) }
{
    let body = body_of(alloc, store)?;
    let mut out = Vec::new(alloc);
    out.extend_from_slice(b"OSBCACH1")?;
    put_field(&mut out, &body)?;
    let digest = Sha256::digest(out.as_slice());
    out.extend_from_slice(&digest)?;
    Ok(Bytes::new(out))
}

#[tactic(auto, unfolding(crate::specs::Texts::body_text))]
fn body_of(alloc: Global, store: &Store) -> Result<Vec<u8>, NoMemory>
    ensures { IfOk result (λ body. body.items ≡ body_text store.now) }
{
    let mut out = Vec::new(alloc);
    put_blobs(&mut out, store.table.blobs())?;
    put_recipes(&mut out, store.table.recipes())?;
    put_entries(alloc, &mut out, store.entries.as_slice())?;
    Ok(out)
}

fn put_blobs(out: &mut Vec<u8>, blobs: &[Bytes]) -> Result<(), NoMemory>
    ensures { OnOk result (out.new.items ≡ out.old.items ++ list_text field blobs.now) }
{
    put_number(out, blobs.len() as u64)?;
    for blob in blobs {
        put_field(out, blob.as_slice())?;
    }
    Ok(())
}

fn put_recipes(out: &mut Vec<u8>, recipes: &[Recipe]) -> Result<(), NoMemory>
    ensures { OnOk result (out.new.items ≡ out.old.items ++ list_text recipe_text recipes.now) }
{
    put_number(out, recipes.len() as u64)?;
    for recipe in recipes {
        put_recipe(out, recipe)?;
    }
    Ok(())
}

fn put_entries(alloc: Global, out: &mut Vec<u8>, entries: &[Stored<Chunk>]) -> Result<(), NoMemory>
    ensures { OnOk result (out.new.items ≡ out.old.items ++ list_text entry_text entries.now) }
{
    put_number(out, entries.len() as u64)?;
    for entry in entries {
        put_entry(alloc, out, entry)?;
    }
    Ok(())
}
