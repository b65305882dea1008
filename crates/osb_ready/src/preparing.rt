//! One manifest before its plan: what is needed of it, and its items.
ghost use Rattle.std.specs.Prelude.{◌≡◌, ◌≢◌, ◌++◌, ℕ, List, Result, Ok, Err, IfOk, map};
ghost use Rattle.std.specs.List.{zip};
ghost use Rattle.osb_base.specs.Fetchers.{FetcherState};
ghost use Rattle.osb_sources.specs.Rounds.{AreItems, IsThinned};
ghost use Rattle.osb_sources.specs.declared.answers.SourceAnswer.{SourceAnswer};
ghost use Rattle.osb_manifest.specs.Needed.{needed, needed_places};
ghost use Rattle.osb_manifest.specs.Wanted.{wanted};
ghost use Rattle.osb_manifest.specs.Manifests.{IsWellFormed};
ghost use Rattle.osb_manifest.specs.declared.manifests.Manifest.{Manifest};
ghost use Rattle.osb_words.specs.declared.requests.Settings.{Settings as SettingsData};
ghost use Rattle.osb_ready.specs.Readying.{asked_of, gathered_ready, needed_ready, ready_of, IsPrepared};
ghost use Rattle.osb_ready.specs.Steps.{IsReadied};

use crate::Unbuilt;
use osb_base::{Bytes, Digest, Fetcher, List, NoMemory, ReadStop};
use osb_ident::{marks, stage_ids};
use osb_manifest::{Manifest, NoSuchExport, Refusal, needed, read_manifest, wanted};
use osb_plan::{Build, ReadyBuild};
use osb_sources::{SourceAnswer, gather};
use osb_words::Settings;
use std::alloc::Global;

/// The build of a manifest by what a shelf gave under its name, with the items that its exports need, which are had from
/// the manifest and the fetchers. Of these, those that are gone may leave the list.
pub fn prepare<F: Fetcher>(
    alloc: Global,
    settings: &Settings,
    given: Result<Option<Bytes>, ReadStop>,
    fetchers: &mut Vec<F>,
) -> Result<ReadyBuild, Unbuilt>
    ensures prepared { IsPrepared settings.now given (map F.fetcher_state fetchers.old.items) (map F.fetcher_state fetchers.new.items) result }
    ensures left { IsThinned (map F.fetcher_state fetchers.old.items) (map F.fetcher_state fetchers.new.items) }
{
    match given {
        Ok(found) => found_build(alloc, settings, found, fetchers),
        Err(stop) => Err(stopped(stop)),
    }
}

fn stopped(stop: ReadStop) -> Unbuilt
    ensures due { (settings : SettingsData) (gathered : Result (List (List ℕ)) SourceAnswer) → ready_of settings (Err stop) gathered ≡ Err result }
{
    match stop {
        ReadStop::Failed => Unbuilt::ReadFault,
        ReadStop::NoMemory => Unbuilt::NoMemory,
    }
}

fn found_build<F: Fetcher>(
    alloc: Global,
    settings: &Settings,
    found: Option<Bytes>,
    fetchers: &mut Vec<F>,
) -> Result<ReadyBuild, Unbuilt>
    ensures prepared { IsPrepared settings.now (Ok found) (map F.fetcher_state fetchers.old.items) (map F.fetcher_state fetchers.new.items) result }
    ensures left { IsThinned (map F.fetcher_state fetchers.old.items) (map F.fetcher_state fetchers.new.items) }
{
    let Some(bytes) = found else {
        return Err(Unbuilt::Absent);
    };
    match read_manifest(alloc, bytes.as_slice()) {
        Ok(manifest) => manifest_build(alloc, settings, manifest, fetchers),
        Err(refusal) => Err(refused(refusal)),
    }
}

fn refused(refusal: Refusal) -> Unbuilt
    ensures memory { refusal ≡ Refusal.NoMemory → result ≡ Unbuilt.NoMemory }
    ensures refused { refusal ≢ Refusal.NoMemory → result ≡ Unbuilt.Refused refusal }
{
    match refusal {
        Refusal::NoMemory => Unbuilt::NoMemory,
        refusal => Unbuilt::Refused(refusal),
    }
}

fn manifest_build<F: Fetcher>(
    alloc: Global,
    settings: &Settings,
    manifest: Manifest,
    fetchers: &mut Vec<F>,
) -> Result<ReadyBuild, Unbuilt>
    requires formed { IsWellFormed manifest }
    ensures readied { IsReadied (asked_of manifest (needed manifest settings.now.exports)) (needed_ready settings.now manifest (needed manifest settings.now.exports)) (map F.fetcher_state fetchers.old.items) (map F.fetcher_state fetchers.new.items) result }
    ensures left { IsThinned (map F.fetcher_state fetchers.old.items) (map F.fetcher_state fetchers.new.items) }
{
    match needed(alloc, &manifest, settings.exports.as_slice()) {
        Ok(places) => needed_build(alloc, settings, manifest, places, fetchers),
        Err(lacks) => Err(lacking(lacks)),
    }
}

fn lacking(lacks: NoSuchExport) -> Unbuilt
    ensures memory { lacks ≡ NoSuchExport.NoMemory → result ≡ Unbuilt.NoMemory }
    ensures due { (settings : SettingsData) (manifest : Manifest) (gathered : Result (List (List ℕ)) SourceAnswer) → needed_ready settings manifest (Err lacks) gathered ≡ Err result }
{
    match lacks {
        NoSuchExport::Lacking(name) => Unbuilt::NoSuchExport(name),
        NoSuchExport::NoMemory => Unbuilt::NoMemory,
    }
}

/// Gathers what the pipelines at these places use.
fn needed_build<F: Fetcher>(
    alloc: Global,
    settings: &Settings,
    manifest: Manifest,
    places: List<usize>,
    fetchers: &mut Vec<F>,
) -> Result<ReadyBuild, Unbuilt>
    requires formed { IsWellFormed manifest }
    requires needed { places ≡ needed_places manifest settings.now.exports }
    ensures readied { IsReadied (asked_of manifest (Ok places)) (gathered_ready settings.now manifest places) (map F.fetcher_state fetchers.old.items) (map F.fetcher_state fetchers.new.items) result }
    ensures left { IsThinned (map F.fetcher_state fetchers.old.items) (map F.fetcher_state fetchers.new.items) }
{
    let Ok(digests) = wanted(alloc, &manifest, places.as_slice()) else {
        return Err(Unbuilt::NoMemory);
    };
    match gather(alloc, &manifest.items, digests.as_slice(), fetchers) {
        Ok(items) => gathered_build(alloc, settings, manifest, places, digests, items),
        Err(answer) => Err(source_unbuilt(answer)),
    }
}

fn source_unbuilt(answer: SourceAnswer) -> Unbuilt
    ensures due { (settings : SettingsData) (manifest : Manifest) (places : List ℕ) → gathered_ready settings manifest places (Err answer) ≡ Err result }
{
    match answer {
        SourceAnswer::NoMemory => Unbuilt::NoMemory,
        answer => Unbuilt::Source(answer),
    }
}

/// The build with these items, each under its digest, and with the marks of the stages whose trees are to be kept.
fn gathered_build(
    alloc: Global,
    settings: &Settings,
    manifest: Manifest,
    places: List<usize>,
    digests: List<Digest>,
    gathered: List<Bytes>,
) -> Result<ReadyBuild, Unbuilt>
    requires formed { IsWellFormed manifest }
    requires needed { places ≡ needed_places manifest settings.now.exports }
    requires wanted { digests ≡ wanted manifest places }
    requires items { AreItems digests gathered }
    ensures due { result ≢ Err Unbuilt.NoMemory → result ≡ gathered_ready settings.now manifest places (Ok gathered) }
{
    let ids = stage_ids(alloc, &manifest)?;
    let marks = marks(alloc, &manifest, &ids, settings.checkpoints.as_slice())?;
    let build = ReadyBuild::new(Build {
        manifest,
        needed: places,
        marks,
        blobs: items_by_digest(alloc, digests.into_vec(), gathered.into_vec())?,
    });
    Ok(build)
}

/// Items, each with its digest.
fn items_by_digest(
    alloc: Global,
    digests: Vec<Digest>,
    items: Vec<Bytes>,
) -> Result<List<(Digest, Bytes)>, NoMemory>
    ensures pairs { IfOk result (λ pairs. pairs ≡ zip digests.items items.items) }
{
    let mut digests = digests.into_iter();
    let mut pairs = Vec::new(alloc);
    for bytes in items {
        let Some(digest) = digests.next() else {
            return Ok(List::new(pairs));
        };
        pairs.push((digest, bytes))?;
    }
    Ok(List::new(pairs))
}
