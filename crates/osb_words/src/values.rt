//! The values of options and the names of manifests, as the matches of clap have them.
ghost use Rattle.std.specs.Prelude.{◌≡◌, ◌==◌, ◌<◌, ℕ, [], map, codes, None, Some, option_map, IfOk, OnOk};
ghost use Rattle.std.specs.List.{list_all};
ghost use Rattle.osb_shape.specs.Forms.{is_pipeline_name};
ghost use Rattle.osb_manifest.specs.Needed.{is_among};
ghost use Rattle.clap.specs.Words.{found_of, rows_of};
ghost use Rattle.osb_words.specs.Readings.{Reads};
ghost use Rattle.osb_words.specs.Requests.{is_given, named, one_new, with_new, parts_of, exports_of};
ghost use Rattle.osb_words.specs.Requests.{is_checkpoint, checkpoint_of, checkpoints_of, mirrors_of, manifests_of};
ghost use Rattle.osb_words.specs.Requests.{is_digit, number_of, most_limit, limit_of, workers_of, read_or, read_needed};
ghost use Rattle.osb_words.specs.Requests.{value_of, others_of, is_flagged};

use crate::WordsFault;
use clap::ArgMatches;
use osb_base::{List, NoMemory, Text};
use osb_ident::Checkpoint;
use osb_shape::is_pipeline_name;
use std::alloc::Global;

const MOST_LIMIT: u64 = 1 << 62;

const MOST_WORKERS: u64 = 64;

const MOST_MANIFESTS: usize = 256;

const MOST_DIGITS: usize = 19;

// ---- options

/// The text that an option was given.
fn text_of<'a>(matches: &ArgMatches<'a>, name: &str) -> Option<&'a str>
    ensures { option_map (λ text. text.now) result ≡ value_of name.now (rows_of (found_of matches.now)) }
{
    matches.get_str(name)
}

pub(crate) fn store(alloc: Global, matches: &ArgMatches) -> Result<Option<Text>, WordsFault>
    ensures { Reads (read_or None (λ text. option_map Some (named text))
        (value_of (codes "store") (rows_of (found_of matches.now)))) result }
{
    match text_of(matches, "store") {
        Some(text) => Ok(Some(named(alloc, text)?)),
        None => Ok(None),
    }
}

pub(crate) fn output(alloc: Global, matches: &ArgMatches) -> Result<Text, WordsFault>
    ensures { Reads (read_needed named (value_of (codes "output") (rows_of (found_of matches.now)))) result }
{
    match text_of(matches, "output") {
        Some(text) => named(alloc, text),
        None => Err(WordsFault::Refused),
    }
}

pub(crate) fn exports(alloc: Global, matches: &ArgMatches) -> Result<List<Text>, WordsFault>
    ensures { Reads (read_needed exports_of (value_of (codes "export") (rows_of (found_of matches.now)))) result }
{
    match text_of(matches, "export") {
        Some(text) => exports_of(alloc, text),
        None => Err(WordsFault::Refused),
    }
}

pub(crate) fn checkpoints(
    alloc: Global,
    matches: &ArgMatches,
) -> Result<List<Checkpoint>, WordsFault>
    ensures { Reads (read_or [] checkpoints_of
        (value_of (codes "checkpoint") (rows_of (found_of matches.now)))) result }
{
    match text_of(matches, "checkpoint") {
        Some(text) => checkpoints_of(alloc, text),
        None => Ok(List::new(Vec::new(alloc))),
    }
}

pub(crate) fn limit(matches: &ArgMatches) -> Result<u64, WordsFault>
    ensures { Reads (read_or most_limit limit_of (value_of (codes "limit") (rows_of (found_of matches.now)))) result }
{
    match text_of(matches, "limit") {
        Some(text) => limit_of(text).ok_or(WordsFault::Refused),
        None => Ok(MOST_LIMIT),
    }
}

pub(crate) fn workers(matches: &ArgMatches) -> Result<u32, WordsFault>
    ensures { Reads (read_or 1 workers_of (value_of (codes "workers") (rows_of (found_of matches.now)))) result }
{
    match text_of(matches, "workers") {
        Some(text) => workers_of(text).ok_or(WordsFault::Refused),
        None => Ok(1),
    }
}

pub(crate) fn mirrors(alloc: Global, matches: &ArgMatches) -> Result<List<Text>, WordsFault>
    ensures { Reads (read_or [] mirrors_of (value_of (codes "mirror") (rows_of (found_of matches.now)))) result }
{
    match text_of(matches, "mirror") {
        Some(text) => parts_of(alloc, ':', text),
        None => Ok(List::new(Vec::new(alloc))),
    }
}

pub(crate) fn manifests(alloc: Global, matches: &ArgMatches) -> Result<List<Text>, WordsFault>
    ensures { Reads (manifests_of (others_of (rows_of (found_of matches.now)))) result }
{
    match matches.get_strs("manifests") {
        Some(names) => manifests_of(alloc, names),
        None => Err(WordsFault::Refused),
    }
}

fn manifests_of(alloc: Global, names: &[&str]) -> Result<List<Text>, WordsFault>
    ensures { Reads (manifests_of (map (λ name. name.now) names.now)) result }
{
    if names.is_empty() || names.len() > MOST_MANIFESTS || !are_given(names) {
        return Err(WordsFault::Refused);
    }
    Ok(List::new(texts(alloc, names)?))
}

fn texts(alloc: Global, names: &[&str]) -> Result<Vec<Text>, NoMemory>
    ensures { IfOk result (λ texts. texts.items ≡ map (λ name. name.now) names.now) }
{
    let mut texts = Vec::new(alloc);
    for name in names {
        texts.push(Text::new(alloc, name)?)?;
    }
    Ok(texts)
}

pub(crate) fn is_flagged(matches: &ArgMatches) -> bool
    ensures { result ≡ is_flagged (rows_of (found_of matches.now)) }
{
    matches.get_one::<bool>("log").unwrap_or(false)
}

// ---- names

fn named(alloc: Global, text: &str) -> Result<Text, WordsFault>
    ensures { Reads (named text.now) result }
{
    if text.is_empty() {
        return Err(WordsFault::Refused);
    }
    Ok(Text::new(alloc, text)?)
}

fn exports_of(alloc: Global, text: &str) -> Result<List<Text>, WordsFault>
    ensures { Reads (exports_of text.now) result }
{
    let names = parts_of(alloc, ',', text)?;
    if are_pipeline_names(names.as_slice()) {
        Ok(names)
    } else {
        Err(WordsFault::Refused)
    }
}

fn are_pipeline_names(names: &[Text]) -> bool
    ensures { result ≡ list_all is_pipeline_name names.now }
{
    names.iter().all(|name| is_pipeline_name(name.as_str()))
}

fn checkpoints_of(alloc: Global, text: &str) -> Result<List<Checkpoint>, WordsFault>
    ensures { Reads (checkpoints_of text.now) result }
{
    let parts = parts_of(alloc, ',', text)?;
    if !are_checkpoints(parts.as_slice()) {
        return Err(WordsFault::Refused);
    }
    Ok(List::new(as_checkpoints(alloc, parts)?))
}

fn are_checkpoints(parts: &[Text]) -> bool
    ensures { result ≡ list_all is_checkpoint parts.now }
{
    parts.iter().all(|part| is_checkpoint(part.as_str()))
}

fn is_checkpoint(part: &str) -> bool
    ensures { result ≡ is_checkpoint part.now }
{
    part == "*" || is_pipeline_name(part)
}

fn as_checkpoints(alloc: Global, parts: List<Text>) -> Result<Vec<Checkpoint>, NoMemory>
    ensures { IfOk result (λ checkpoints. checkpoints.items ≡ map checkpoint_of parts) }
{
    parts
        .into_vec()
        .into_iter()
        .map(checkpoint_of)
        .collect(alloc)
}

fn checkpoint_of(part: Text) -> Checkpoint
    ensures { result ≡ checkpoint_of part }
{
    if part.as_str() == "*" {
        Checkpoint::All
    } else {
        Checkpoint::Word(part)
    }
}

// ---- parts of a list

/// The parts between dividers, each once, where none is empty.
fn parts_of(alloc: Global, divider: char, text: &str) -> Result<List<Text>, WordsFault>
    requires { divider < 128 }
    ensures { Reads (parts_of divider text.now) result }
{
    let parts: Vec<&str> = text.split(divider).collect(alloc)?;
    if !are_given(&parts) {
        return Err(WordsFault::Refused);
    }
    Ok(List::new(each_once(alloc, &parts)?))
}

fn are_given(parts: &[&str]) -> bool
    ensures { result ≡ list_all is_given (map (λ part. part.now) parts.now) }
{
    parts.iter().all(|part| !part.is_empty())
}

/// The parts in order, without those that equal an earlier one.
fn each_once(alloc: Global, parts: &[&str]) -> Result<Vec<Text>, NoMemory>
    ensures { IfOk result (λ names. names.items ≡ with_new [] (map (λ part. part.now) parts.now)) }
{
    let mut names = Vec::new(alloc);
    for part in parts {
        add_new(alloc, &mut names, part)?;
    }
    Ok(names)
}

/// Adds a name that isn't there yet.
fn add_new(alloc: Global, names: &mut Vec<Text>, name: &str) -> Result<(), NoMemory>
    ensures { OnOk result (names.new.items ≡ one_new names.old.items name.now) }
{
    if is_among(names, name) {
        return Ok(());
    }
    names.push(Text::new(alloc, name)?)?;
    Ok(())
}

fn is_among(names: &[Text], name: &str) -> bool
    ensures { result ≡ is_among names.now name.now }
{
    for held in names {
        if name == held.as_str() {
            return true;
        }
    }
    false
}

// ---- numbers

fn limit_of(text: &str) -> Option<u64>
    ensures { result ≡ limit_of text.now }
{
    if text == "unlimited" {
        return Some(MOST_LIMIT);
    }
    let number = number_of(text)?;
    if number <= MOST_LIMIT {
        Some(number)
    } else {
        None
    }
}

fn workers_of(text: &str) -> Option<u32>
    ensures { result ≡ workers_of text.now }
{
    let number = number_of(text)?;
    if (1..=MOST_WORKERS).contains(&number) {
        Some(number as u32)
    } else {
        None
    }
}

fn number_of(text: &str) -> Option<u64>
    ensures { result ≡ number_of text.now }
{
    let bytes = text.as_bytes();
    if bytes.is_empty() || bytes.len() > MOST_DIGITS || !are_digits(bytes) {
        return None;
    }
    text.parse().ok()
}

fn are_digits(bytes: &[u8]) -> bool
    ensures { result ≡ list_all is_digit bytes.now }
{
    bytes.iter().all(|byte| byte.is_ascii_digit())
}
