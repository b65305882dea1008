//! The texts of a store's items.
ghost use Rattle.std.specs.Prelude.{◌≡◌, ◌∷◌, ◌++◌, [], IfSome, OnOk, length};
ghost use Rattle.std.specs.List.{flat_map};
ghost use Rattle.osb_tree.specs.Chunks.{pairs_of};
ghost use Rattle.osb_store.specs.Fields.{number, small_number, field};
ghost use Rattle.osb_store.specs.Texts.{ref_text, build_text, content_text, input_text, recipe_text, owned_text, node_text, nodes_text, entry_text};

use osb_base::NoMemory;
use osb_cache::Stored;
use osb_recipe::{InputRecipe, Recipe, TreeRef};
use osb_tree::{Chunk, Node, Path, Shared, Text};
use std::alloc::{AllocError, Global};

#[tactic(auto, unfolding(crate::specs::Fields::number))]
pub(crate) fn put_number(out: &mut Vec<u8>, value: u64) -> Result<(), NoMemory>
    ensures { OnOk result (out.new.items ≡ out.old.items ++ number value) }
{
    out.extend_from_slice(&value.to_be_bytes())
}

#[tactic(auto, unfolding(crate::specs::Fields::small_number))]
fn put_small_number(out: &mut Vec<u8>, value: u32) -> Result<(), NoMemory>
    ensures { OnOk result (out.new.items ≡ out.old.items ++ small_number value) }
{
    out.extend_from_slice(&value.to_be_bytes())
}

fn put_byte(out: &mut Vec<u8>, byte: u8) -> Result<(), NoMemory>
    ensures { OnOk result (out.new.items ≡ out.old.items ++ byte ∷ []) }
{
    out.push(byte)?;
    Ok(())
}

pub(crate) fn put_field(out: &mut Vec<u8>, bytes: &[u8]) -> Result<(), NoMemory>
    ensures { OnOk result (out.new.items ≡ out.old.items ++ field bytes.now) }
{
    put_number(out, bytes.len() as u64)?;
    out.extend_from_slice(bytes)
}

fn put_ref(out: &mut Vec<u8>, tree: TreeRef) -> Result<(), NoMemory>
    ensures { OnOk result (out.new.items ≡ out.old.items ++ ref_text tree) }
{
    match tree {
        TreeRef::Empty => put_byte(out, 1),
        TreeRef::Of(key) => {
            put_byte(out, 2)?;
            put_number(out, key.0)
        }
    }
}

fn put_build(out: &mut Vec<u8>, build: Option<TreeRef>) -> Result<(), NoMemory>
    ensures { OnOk result (out.new.items ≡ out.old.items ++ build_text build) }
{
    match build {
        None => put_byte(out, 0),
        Some(tree) => put_ref(out, tree),
    }
}

fn put_numbers(out: &mut Vec<u8>, numbers: &[u64]) -> Result<(), NoMemory>
    ensures { OnOk result (out.new.items ≡ out.old.items ++ (number (length numbers.now) ++ flat_map number numbers.now)) }
{
    put_number(out, numbers.len() as u64)?;
    for value in numbers {
        put_number(out, *value)?;
    }
    Ok(())
}

fn put_content(out: &mut Vec<u8>, content: &InputRecipe) -> Result<(), NoMemory>
    ensures { OnOk result (out.new.items ≡ out.old.items ++ content_text content.now) }
{
    match content {
        InputRecipe::Tree(tree) => {
            put_byte(out, 3)?;
            put_ref(out, *tree)
        }
        InputRecipe::Files(numbers) => {
            put_byte(out, 4)?;
            put_numbers(out, numbers.as_slice())
        }
    }
}

fn put_inputs(out: &mut Vec<u8>, inputs: &[(Text, InputRecipe)]) -> Result<(), NoMemory>
    ensures { OnOk result (out.new.items ≡ out.old.items ++ (number (length inputs.now) ++ flat_map input_text inputs.now)) }
{
    put_number(out, inputs.len() as u64)?;
    for (name, content) in inputs {
        put_field(out, name.as_str().as_bytes())?;
        put_content(out, content)?;
    }
    Ok(())
}

pub(crate) fn put_recipe(out: &mut Vec<u8>, recipe: &Recipe) -> Result<(), NoMemory>
    ensures { OnOk result (out.new.items ≡ out.old.items ++ recipe_text recipe.now) }
{
    put_field(out, recipe.kind.get().type_text().as_bytes())?;
    put_field(out, recipe.options_text.as_str().as_bytes())?;
    put_build(out, recipe.build)?;
    put_ref(out, recipe.base)?;
    put_inputs(out, recipe.inputs.as_slice())
}

fn put_owned(
    alloc: Global,
    out: &mut Vec<u8>,
    owners: (u32, u32),
    path: &Path,
    content: &[u8],
) -> Result<(), NoMemory>
    ensures { OnOk result (out.new.items ≡ out.old.items ++ owned_text owners.0 owners.1 path.now content.now) }
{
    put_small_number(out, owners.0)?;
    put_small_number(out, owners.1)?;
    let text = path.text(alloc)?;
    put_field(out, text.as_str().as_bytes())?;
    put_field(out, content)
}

fn put_node(alloc: Global, out: &mut Vec<u8>, path: &Path, node: &Node) -> Result<(), NoMemory>
    ensures { OnOk result (out.new.items ≡ out.old.items ++ node_text (path.now, node.now)) }
{
    let (tag, mode, owners, content): (u8, u32, (u32, u32), &[u8]) = match node {
        Node::Dir { mode, uid, gid } => (1, *mode, (*uid, *gid), &[]),
        Node::File {
            mode,
            uid,
            gid,
            bytes,
        } => (2, *mode, (*uid, *gid), bytes.as_slice()),
        Node::Link { uid, gid, target } => (3, 0o777, (*uid, *gid), target.as_str().as_bytes()),
    };
    put_byte(out, tag)?;
    put_small_number(out, mode)?;
    put_owned(alloc, out, owners, path, content)
}

fn put_chunk(alloc: Global, out: &mut Vec<u8>, chunk: &Chunk) -> Result<(), NoMemory>
    ensures { OnOk result (out.new.items ≡ out.old.items ++ flat_map node_text chunk.now) }
{
    for i in 0..chunk.len() {
        put_node(alloc, out, chunk.path(i), chunk.node(i))?;
    }
    Ok(())
}

/// How many pairs the chunks have, where the number fits.
fn count_of(chunks: &[Shared<Chunk>]) -> Option<u64>
    ensures { IfSome result (λ count. count ≡ length (pairs_of chunks.now)) }
{
    let mut count: u64 = 0;
    for chunk in chunks {
        count = count.checked_add(chunk.get().len() as u64)?;
    }
    Some(count)
}

fn put_nodes(alloc: Global, out: &mut Vec<u8>, chunks: &[Shared<Chunk>]) -> Result<(), NoMemory>
    ensures { OnOk result (out.new.items ≡ out.old.items ++ nodes_text (pairs_of chunks.now)) }
{
    let Some(count) = count_of(chunks) else {
        return Err(AllocError);
    };
    put_number(out, count)?;
    for chunk in chunks {
        put_chunk(alloc, out, chunk.get())?;
    }
    Ok(())
}

pub(crate) fn put_entry(
    alloc: Global,
    out: &mut Vec<u8>,
    entry: &Stored<Chunk>,
) -> Result<(), NoMemory>
    ensures { OnOk result (out.new.items ≡ out.old.items ++ entry_text entry.now) }
{
    put_number(out, entry.key.0)?;
    put_nodes(alloc, out, entry.chunks.as_slice())
}
