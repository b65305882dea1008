ghost use Rattle.std.specs.Prelude.{◌≡◌, ◌≢◌, ◌<◌, ◌==◌, ◌||◌, ℕ, false, not, find, length, Err, IfOk, option_copied, slice_index_or};
ghost use Rattle.std.specs.List.{flat_map};
ghost use Rattle.std.specs.Map.{keys_of};
ghost use Rattle.osb_manifest.specs.Needed.{input_needs, inputs_need, build_needs, needs_of, is_among, has_place, needed_from, places_of, needed};

use crate::{Input, Manifest, Pipeline, Pipelines, Stage};
use osb_base::{List, NoMemory, Text};
use std::alloc::Global;

/// Why there is no answer to what some exports need.
#[derive(Debug, Drop)]
pub enum NoSuchExport {
    /// 1: no pipeline of the manifest has this name, and each export before it is there.
    Lacking(Text),
    NoMemory,
}

impl From<NoMemory> for NoSuchExport {
    ghost use Rattle.std.specs.Prelude.{◌≡◌};
    ghost use Rattle.osb_manifest.specs.declared.exports.NoSuchExport.TheVariants.{NoMemory};

    ghost from_gives = { λ _ e. e ≡ NoMemory };

    fn from(_: NoMemory) -> Self {
        NoSuchExport::NoMemory
    }
}

/// The places of the pipelines that some exports need, rising: their own, and those that a needed one is built with.
pub fn needed(
    alloc: Global,
    manifest: &Manifest,
    exports: &[Text],
) -> Result<List<usize>, NoSuchExport>
    ensures needed { result ≢ Err NoSuchExport.NoMemory → result ≡ needed manifest.now exports.now }
{
    if let Some(name) = first_lacking(&manifest.pipelines, exports) {
        return Err(NoSuchExport::Lacking(name.clone()?));
    }
    Ok(List::new(needed_places(alloc, &manifest.pipelines, exports)?))
}

fn first_lacking<'a>(pipelines: &Pipelines, exports: &'a [Text]) -> Option<&'a Text>
    ensures { option_copied result ≡ find (λ name. not (is_among (keys_of pipelines.now) name)) exports.now }
{
    for name in exports {
        if !pipelines.contains(name.as_str()) {
            return Some(name);
        }
    }
    None
}

fn needed_places(
    alloc: Global,
    pipelines: &Pipelines,
    exports: &[Text],
) -> Result<Vec<usize>, NoMemory>
    ensures { IfOk result (λ places. places.items ≡ places_of (needed_from exports.now 0 pipelines.now)) }
{
    let mut flags = vec![in alloc; false; pipelines.len()]?;
    let mut places = Vec::new(alloc);
    for place in (0..pipelines.len()).rev() {
        if is_needed(&flags, exports, place, pipelines.name(place)) {
            places.push(place)?;
            flag_needs(&mut flags, pipelines.pipeline(place));
        }
    }
    places.reverse();
    Ok(places)
}

/// Whether a pipeline is an export, or flagged.
fn is_needed(flags: &[bool], exports: &[Text], place: usize, name: &str) -> bool
    requires { place < length flags.now }
    ensures { result ≡ (is_among exports.now name.now || slice_index_or flags.now place false) }
{
    is_among(exports, name) || flags[place]
}

fn is_among(names: &[Text], name: &str) -> bool
    ensures { result ≡ is_among names.now name.now }
{
    for held in names {
        if name == held.as_str() {
            return true;
        }
    }
    false
}

/// Sets the flag of each place that a pipeline is built with.
fn flag_needs(flags: &mut [bool], pipeline: &Pipeline)
    ensures { (k : ℕ) → k < length flags.old → slice_index_or flags.new k false ≡ (slice_index_or flags.old k false || has_place (needs_of pipeline.now) k) }
{
    if let Some(place) = pipeline.build {
        flag(flags, place);
    }
    flag_stages(flags, pipeline.stages.as_slice());
}

fn flag_stages(flags: &mut [bool], stages: &[Stage])
    ensures { (k : ℕ) → k < length flags.old → slice_index_or flags.new k false ≡ (slice_index_or flags.old k false || has_place (flat_map (λ stage. inputs_need stage.inputs) stages.now) k) }
{
    for stage in stages {
        flag_inputs(flags, stage.inputs.as_slice());
    }
}

fn flag_inputs(flags: &mut [bool], inputs: &[(Text, Input)])
    ensures { (k : ℕ) → k < length flags.old → slice_index_or flags.new k false ≡ (slice_index_or flags.old k false || has_place (inputs_need inputs.now) k) }
{
    for (_, input) in inputs {
        if let Input::Tree(place, _) = input {
            flag(flags, *place);
        }
    }
}

fn flag(flags: &mut [bool], place: usize)
    ensures { (k : ℕ) → k < length flags.old → slice_index_or flags.new k false ≡ (slice_index_or flags.old k false || (place == k)) }
{
    if place < flags.len() {
        flags[place] = true;
    }
}
