//! What came of a build's tasks: its exports with their trees, or why there are none.
ghost use Rattle.std.specs.Prelude.{◌≡◌, ◌≢◌, ◌++◌, ℕ, Some, None, Err, OnOk, IfOk, IfErr, slice_get};
ghost use Rattle.std.specs.Option.{option_to_list};
ghost use Rattle.std.specs.List.{list_any};
ghost use Rattle.std.specs.Map.{keys_of};
ghost use Rattle.osb_recipe.specs.Works.{tree_of};
ghost use Rattle.osb_recipe.specs.declared.plans.Plan.{Plan};
ghost use Rattle.osb_plan.specs.Bridge.{IsReady};
ghost use Rattle.osb_ready.specs.Pairing.{outcome_of, at_place, built_from};
ghost use Rattle.osb_ready.specs.Ends.{AreTaskEnds};
ghost use Rattle.osb_ready.specs.Trees.{failure_of, first_failure, with_name, named_trees, exports_of, is_lost, came_of, IsOfBuild, exports_due};

use crate::{Export, Unbuilt};
use osb_base::{List, NoMemory, Share, TaskNo, Text, find_named};
use osb_manifest::{Manifest, Pipelines};
use osb_plan::Build;
use osb_recipe::Outcome;
use osb_tree::{Shared, StageFault, Tree};
use std::alloc::Global;

/// The exports of these names, by the outcomes of a plan's tasks; `numbers` has the task of each pipeline that the build
/// needs.
pub fn exports_of_tasks(
    alloc: Global,
    build: &Build,
    numbers: &List<TaskNo>,
    outcomes: &[Outcome],
    names: &[Text],
) -> Result<List<Export>, Unbuilt>
    ensures of_build { IsOfBuild result }
    ensures due { (plan : Plan) → IsReady build.now → AreTaskEnds plan build.now numbers.now outcomes.now → result ≢ Err Unbuilt.NoMemory → result ≡ exports_due names.now build.now }
{
    came_of_tasks(alloc, build, numbers, outcomes, names)
}

fn came_of_tasks(
    alloc: Global,
    build: &Build,
    numbers: &List<TaskNo>,
    outcomes: &[Outcome],
    names: &[Text],
) -> Result<List<Export>, Unbuilt>
    ensures came { result ≢ Err Unbuilt.NoMemory → result ≡ came_of names.now build.now.manifest (built_from outcomes.now build.now.needed 0 numbers.now) }
{
    let built = by_places(alloc, build, numbers, outcomes)?;
    if some_lost(&built) {
        return Err(Unbuilt::NoMemory);
    }
    match named_trees(alloc, &build.manifest, built) {
        Ok(trees) => exports_of(alloc, &trees, names),
        Err(unbuilt) => Err(unbuilt),
    }
}

fn some_lost(built: &[(usize, Outcome)]) -> bool
    ensures { result ≡ list_any (λ entry. is_lost entry.1) built.now }
{
    built
        .iter()
        .any(|entry| matches!(entry.1, Outcome::NoMemory))
}

fn by_places(
    alloc: Global,
    build: &Build,
    numbers: &List<TaskNo>,
    outcomes: &[Outcome],
) -> Result<Vec<(usize, Outcome)>, NoMemory>
    ensures { IfOk result (λ built. built.items ≡ built_from outcomes.now build.now.needed 0 numbers.now) }
{
    let mut built = Vec::new(alloc);
    for (first, number) in numbers.as_slice().iter().enumerate() {
        add_built(build, first, outcomes, *number, &mut built)?;
    }
    Ok(built)
}

fn add_built(
    build: &Build,
    first: usize,
    outcomes: &[Outcome],
    number: TaskNo,
    built: &mut Vec<(usize, Outcome)>,
) -> Result<(), NoMemory>
    ensures { OnOk result (built.new.items ≡ built.old.items ++ at_place (slice_get build.now.needed first) (outcome_of outcomes.now number)) }
{
    match place_at(build, first) {
        Some(place) => {
            built.push((place, outcome_at(outcomes, number)?))?;
            Ok(())
        }
        None => Ok(()),
    }
}

fn place_at(build: &Build, first: usize) -> Option<usize>
    ensures { result ≡ slice_get build.now.needed first }
{
    build.needed.as_slice().get(first).copied()
}

/// The outcome of a task; one that has none had no memory.
fn outcome_at(outcomes: &[Outcome], number: TaskNo) -> Result<Outcome, NoMemory>
    ensures { IfOk result (λ outcome. outcome ≡ outcome_of outcomes.now number) }
{
    match outcomes.get(number.0 as usize) {
        Some(outcome) => outcome.share(),
        None => Ok(Outcome::NoMemory),
    }
}

/// The trees that there are, by name, unless a pipeline has a fault.
fn named_trees(
    alloc: Global,
    manifest: &Manifest,
    built: Vec<(usize, Outcome)>,
) -> Result<Vec<(Text, Shared<Tree>)>, Unbuilt>
    ensures ok { IfOk result (λ trees. (first_failure manifest.now built.items ≡ None) × (trees.items ≡ named_trees manifest.now built.items)) }
    ensures failed { IfErr result (λ unbuilt. unbuilt ≢ Unbuilt.NoMemory → first_failure manifest.now built.items ≡ Some unbuilt) }
{
    let mut trees = Vec::new(alloc);
    for (place, outcome) in built {
        match add_tree(alloc, &manifest.pipelines, place, outcome, &mut trees) {
            Ok(()) => {}
            Err(unbuilt) => return Err(unbuilt),
        }
    }
    Ok(trees)
}

/// Adds the tree of the pipeline at a place, if it has one.
fn add_tree(
    alloc: Global,
    pipelines: &Pipelines,
    place: usize,
    outcome: Outcome,
    trees: &mut Vec<(Text, Shared<Tree>)>,
) -> Result<(), Unbuilt>
    ensures ok { OnOk result ((failure_of (slice_get (keys_of pipelines.now) place) outcome ≡ None) × (trees.new.items ≡ trees.old.items ++ option_to_list (with_name (slice_get (keys_of pipelines.now) place) (tree_of outcome)))) }
    ensures failed { IfErr result (λ unbuilt. unbuilt ≢ Unbuilt.NoMemory → failure_of (slice_get (keys_of pipelines.now) place) outcome ≡ Some unbuilt) }
{
    if place >= pipelines.len() {
        return Ok(());
    }
    let name = pipelines.name(place);
    match outcome {
        Outcome::Tree(tree) => {
            trees.push((Text::new(alloc, name)?, tree))?;
            Ok(())
        }
        Outcome::Fault(stage, fault) => Err(failed(alloc, name, stage, fault)),
        _ => Ok(()),
    }
}

/// The exports of these names, each with the tree of its name.
fn exports_of(
    alloc: Global,
    trees: &[(Text, Shared<Tree>)],
    names: &[Text],
) -> Result<List<Export>, Unbuilt>
    ensures { result ≢ Err Unbuilt.NoMemory → result ≡ exports_of trees.now names.now }
{
    let mut exports = Vec::new(alloc);
    for name in names {
        let Some(tree) = find_named(trees, name.as_str()) else {
            return Err(Unbuilt::NoSuchExport(name.clone()?));
        };
        exports.push(Export {
            name: name.clone()?,
            tree: tree.share()?,
        })?;
    }
    Ok(List::new(exports))
}

/// The answer of a pipeline whose stage has this fault.
fn failed(alloc: Global, name: &str, stage: u64, fault: StageFault) -> Unbuilt
    ensures memory { fault ≡ StageFault.NoMemory → result ≡ Unbuilt.NoMemory }
    ensures fault { result ≢ Unbuilt.NoMemory → result ≡ Unbuilt.Failed name.now stage fault }
{
    if let StageFault::NoMemory = fault {
        return Unbuilt::NoMemory;
    }
    match Text::new(alloc, name) {
        Ok(pipeline) => Unbuilt::Failed {
            pipeline,
            stage,
            fault,
        },
        Err(_) => Unbuilt::NoMemory,
    }
}
