//! The builds of a run before its plan.
ghost use Rattle.std.specs.Prelude.{◌≡◌, ◌++◌, [], ◌∷◌, length, map, IfOk, OnOk};
ghost use Rattle.std.specs.List.{All, filter_map};
ghost use Rattle.std.specs.Result.{result_ok};
ghost use Rattle.osb_base.specs.Fetchers.{FetcherState};
ghost use Rattle.osb_sources.specs.Rounds.{IsThinned};
ghost use Rattle.osb_plan.specs.Bridge.{IsReady};
ghost use Rattle.osb_top.specs.Builds.{ArePrepared, place_of, places_from};

use osb_base::{Bytes, Fetcher, NoMemory, ReadStop};
use osb_plan::{Build, ReadyBuild};
use osb_ready::{Unbuilt, prepare};
use osb_words::Settings;
use std::alloc::Global;

/// The builds that are planned, and for each manifest its build's place among them, or why it has none.
#[derive(Drop)]
pub(crate) struct Builds {
    pub(crate) planned: Vec<Build>,
    pub(crate) places: Vec<Result<usize, Unbuilt>>,
}

/// Prepares a build for each manifest, by what the shelf gave of it. The bytes are dropped with each.
pub(crate) fn prepare_all(
    alloc: Global,
    settings: &Settings,
    reads: Vec<Result<Option<Bytes>, ReadStop>>,
    fetchers: &mut Vec<Box<dyn Fetcher>>,
) -> Result<Vec<Result<ReadyBuild, Unbuilt>>, NoMemory>
    ensures prepared { IfOk result (λ builds. ArePrepared settings.now (map (λ b. fetcher_state b) fetchers.old.items) reads.items builds.items (map (λ b. fetcher_state b) fetchers.new.items)) }
    ensures left { IsThinned (map (λ b. fetcher_state b) fetchers.old.items) (map (λ b. fetcher_state b) fetchers.new.items) }
{
    let mut builds = Vec::new(alloc);
    for given in reads {
        builds.push(prepare(alloc, settings, given, fetchers))?;
    }
    Ok(builds)
}

/// Takes the builds that are ready out of the list.
pub(crate) fn split(
    alloc: Global,
    readies: Vec<Result<ReadyBuild, Unbuilt>>,
) -> Result<Builds, NoMemory>
    ensures planned { IfOk result (λ builds. builds.planned.items ≡ filter_map result_ok readies.items) }
    ensures places { IfOk result (λ builds. builds.places.items ≡ places_from 0 readies.items) }
    ensures ready { IfOk result (λ builds. All IsReady builds.planned.items) }
{
    let mut planned = Vec::new(alloc);
    let mut places = Vec::new(alloc);
    for ready in readies {
        add_build(ready, &mut planned, &mut places)?;
    }
    Ok(Builds { planned, places })
}

fn add_build(
    ready: Result<ReadyBuild, Unbuilt>,
    planned: &mut Vec<Build>,
    places: &mut Vec<Result<usize, Unbuilt>>,
) -> Result<(), NoMemory>
    ensures planned { OnOk result (planned.new.items ≡ planned.old.items ++ filter_map result_ok (ready ∷ [])) }
    ensures places { OnOk result (places.new.items ≡ places.old.items ++ place_of (length planned.old.items) ready ∷ []) }
    ensures ready { OnOk result (All IsReady planned.old.items → All IsReady planned.new.items) }
{
    match ready {
        Ok(build) => {
            places.push(Ok(planned.len()))?;
            planned.push(build.into_build())?;
            Ok(())
        }
        Err(unbuilt) => {
            places.push(Err(unbuilt))?;
            Ok(())
        }
    }
}
