//! Places in a JSON value, as texts: JSON Pointers (RFC 6901).
ghost use Rattle.std.specs.Prelude.{◌≡◌, [], ◌∷◌, ◌++◌, codes, IfOk, string_bytes};
ghost use Rattle.std.specs.List.{flat_map};
ghost use Rattle.std.specs.Str.{chars};
ghost use Rattle.osb_shape.specs.Places.{known, named, index, escaped_char, step_text, place_text, pipeline_place, stage_place, input_place, source_place, item_place, member_place};

use osb_base::{NoMemory, Text};
use std::alloc::Global;

/// The place of the whole value.
pub fn top_place(alloc: Global) -> Text
    ensures place { result ≡ place_text [] }
{
    Text::from(String::new(alloc))
}

pub fn place_in_top(alloc: Global, name: &str) -> Result<Text, NoMemory>
    ensures place { IfOk result (λ place. place ≡ place_text (known name.now ∷ [])) }
{
    Ok(Text::from(format!(in alloc; "/{name}")?))
}

pub fn pipeline_place(alloc: Global, i: usize) -> Result<Text, NoMemory>
    ensures place { IfOk result (λ place. place ≡ place_text (pipeline_place i)) }
{
    Ok(Text::from(format!(in alloc; "/pipelines/{i}")?))
}

pub fn place_in_pipeline(alloc: Global, i: usize, name: &str) -> Result<Text, NoMemory>
    ensures place { IfOk result (λ place. place ≡ place_text (member_place (pipeline_place i) name.now)) }
{
    Ok(Text::from(format!(in alloc; "/pipelines/{i}/{name}")?))
}

pub fn stage_place(alloc: Global, i: usize, j: usize) -> Result<Text, NoMemory>
    ensures place { IfOk result (λ place. place ≡ place_text (stage_place i j)) }
{
    Ok(Text::from(format!(in alloc; "/pipelines/{i}/stages/{j}")?))
}

pub fn place_in_stage(alloc: Global, i: usize, j: usize, name: &str) -> Result<Text, NoMemory>
    ensures place { IfOk result (λ place. place ≡ place_text (member_place (stage_place i j) name.now)) }
{
    Ok(Text::from(format!(in alloc; "/pipelines/{i}/stages/{j}/{name}")?))
}

/// The place of what stands within a stage's options, from its place in them.
pub fn place_in_options(alloc: Global, i: usize, j: usize, rest: &str) -> Result<Text, NoMemory>
    ensures place { IfOk result (λ place. place ≡ place_text (member_place (stage_place i j) (codes "options")) ++ rest.now) }
{
    let options = place_in_stage(alloc, i, j, "options")?;
    Ok(Text::from(format!(in alloc; "{}{rest}", options.as_str())?))
}

/// The place of a stage's input of a name.
pub fn input_place(alloc: Global, i: usize, j: usize, name: &str) -> Result<Text, NoMemory>
    ensures place { IfOk result (λ place. place ≡ place_text (input_place i j name.now)) }
{
    let name = escaped(alloc, name)?;
    Ok(Text::from(format!(in alloc; "/pipelines/{i}/stages/{j}/inputs/{name}")?))
}

pub fn source_place(alloc: Global, source: &str) -> Result<Text, NoMemory>
    ensures place { IfOk result (λ place. place ≡ place_text (source_place source.now)) }
{
    let source = escaped(alloc, source)?;
    Ok(Text::from(format!(in alloc; "/sources/{source}")?))
}

/// The place of an item of a source.
pub fn item_place(alloc: Global, source: &str, key: &str) -> Result<Text, NoMemory>
    ensures place { IfOk result (λ place. place ≡ place_text (item_place source.now key.now)) }
{
    let source = escaped(alloc, source)?;
    let key = escaped(alloc, key)?;
    Ok(Text::from(format!(in alloc; "/sources/{source}/items/{key}")?))
}

/// A place within an item of a list, from its place in the item.
pub(crate) fn place_in_item(alloc: Global, number: usize, rest: &str) -> Result<Text, NoMemory>
    ensures { IfOk result (λ place. place ≡ step_text (index number) ++ rest.now) }
{
    Ok(Text::from(format!(in alloc; "/{number}{rest}")?))
}

/// A place within a member of any name, from its place in the member.
pub(crate) fn place_in_member(alloc: Global, name: &str, rest: &str) -> Result<Text, NoMemory>
    ensures { IfOk result (λ place. place ≡ step_text (named name.now) ++ rest.now) }
{
    let escaped = escaped(alloc, name)?;
    Ok(Text::from(format!(in alloc; "/{escaped}{rest}")?))
}

fn escaped(alloc: Global, name: &str) -> Result<String, NoMemory>
    ensures { IfOk result (λ text. string_bytes text ≡ flat_map escaped_char (chars name.now)) }
{
    let mut text = String::new(alloc);
    for c in name.chars() {
        write_escaped(&mut text, c)?;
    }
    Ok(text)
}

fn write_escaped(text: &mut String, c: char) -> Result<(), NoMemory>
    ensures { IfOk result (λ _. string_bytes text.new ≡ string_bytes text.old ++ escaped_char c) }
{
    match c {
        '~' => text.push_str("~0"),
        '/' => text.push_str("~1"),
        _ => text.push(c),
    }
}
