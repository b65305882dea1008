//! What a recipe refers to.
ghost use Rattle.osb_store.specs.Reading.{times_at, list_at, number_at, ref_behind, ref_at, build_at, content_at, input_at};
ghost use Rattle.osb_store.specs.Steps.{Gives};

use crate::fields::{byte_of, number_of, text_of};
use crate::steps::Stop;
use osb_recipe::{InputRecipe, TreeRef};
use osb_tree::{Key, List, Text};
use std::alloc::Global;

/// Behind the byte that tells the kind.
fn ref_behind(tag: u8, bytes: &[u8]) -> Result<(TreeRef, &[u8]), Stop>
    ensures { Gives (λ x. (x.0, x.1.now)) result (ref_behind tag bytes.now) }
{
    match tag {
        1 => Ok((TreeRef::Empty, bytes)),
        2 => {
            let (number, rest) = number_of(bytes)?;
            Ok((TreeRef::Of(Key(number)), rest))
        }
        _ => Err(Stop::Broken),
    }
}

pub(crate) fn ref_of(bytes: &[u8]) -> Result<(TreeRef, &[u8]), Stop>
    ensures { Gives (λ x. (x.0, x.1.now)) result (ref_at bytes.now) }
{
    let (tag, rest) = byte_of(bytes)?;
    ref_behind(tag, rest)
}

pub(crate) fn build_of(bytes: &[u8]) -> Result<(Option<TreeRef>, &[u8]), Stop>
    ensures { Gives (λ x. (x.0, x.1.now)) result (build_at bytes.now) }
{
    let (tag, rest) = byte_of(bytes)?;
    if tag == 0 {
        return Ok((None, rest));
    }
    let (build, rest) = ref_behind(tag, rest)?;
    Ok((Some(build), rest))
}

fn read_numbers(alloc: Global, count: u64, bytes: &[u8]) -> Result<(Vec<u64>, &[u8]), Stop>
    ensures { Gives (λ x. (x.0.items, x.1.now)) result (times_at number_at count bytes.now) }
{
    let mut numbers = Vec::new(alloc);
    let mut rest = bytes;
    for _ in 0..count {
        let (number, after) = number_of(rest)?;
        numbers.push(number)?;
        rest = after;
    }
    Ok((numbers, rest))
}

fn content_of(alloc: Global, bytes: &[u8]) -> Result<(InputRecipe, &[u8]), Stop>
    ensures { Gives (λ x. (x.0, x.1.now)) result (content_at bytes.now) }
{
    let (tag, rest) = byte_of(bytes)?;
    match tag {
        3 => {
            let (tree, rest) = ref_of(rest)?;
            Ok((InputRecipe::Tree(tree), rest))
        }
        4 => {
            let (count, rest) = number_of(rest)?;
            let (numbers, rest) = read_numbers(alloc, count, rest)?;
            Ok((InputRecipe::Files(List::new(numbers)), rest))
        }
        _ => Err(Stop::Broken),
    }
}

fn input_of(alloc: Global, bytes: &[u8]) -> Result<((Text, InputRecipe), &[u8]), Stop>
    ensures { Gives (λ x. ((x.0.0, x.0.1), x.1.now)) result (input_at bytes.now) }
{
    let (name, rest) = text_of(bytes)?;
    let (content, rest) = content_of(alloc, rest)?;
    Ok(((Text::new(alloc, name)?, content), rest))
}

fn read_inputs(
    alloc: Global,
    count: u64,
    bytes: &[u8],
) -> Result<(Vec<(Text, InputRecipe)>, &[u8]), Stop>
    ensures { Gives (λ x. (x.0.items, x.1.now)) result (times_at input_at count bytes.now) }
{
    let mut inputs = Vec::new(alloc);
    let mut rest = bytes;
    for _ in 0..count {
        let (input, after) = input_of(alloc, rest)?;
        inputs.push(input)?;
        rest = after;
    }
    Ok((inputs, rest))
}

pub(crate) fn inputs_of(
    alloc: Global,
    bytes: &[u8],
) -> Result<(Vec<(Text, InputRecipe)>, &[u8]), Stop>
    ensures { Gives (λ x. (x.0.items, x.1.now)) result (list_at input_at bytes.now) }
{
    let (count, rest) = number_of(bytes)?;
    read_inputs(alloc, count, rest)
}
