ghost use Rattle.std.specs.Prelude.{IfOk};
ghost use Rattle.std.specs.List.{All};
ghost use Rattle.osb_recipe.specs.Plans.{IsSound};
ghost use Rattle.osb_plan.specs.Bridge.{IsReady};

use crate::cases::Case;
use crate::entries::Entry;
use crate::marks::checkpoints;
use crate::mistakes::{CaseFault, Mistake};
use crate::parts::bytes_of;
use osb_base::{Bytes, List, NoMemory, SureFetcher, Text};
use osb_plan::{Build, plan};
use osb_ready::{Unbuilt, prepare};
use osb_recipe::{Plan, Table};
use osb_words::Settings;
use std::alloc::{AllocError, Global};
use std::fmt::Write;

/// The plan of a case's builds.
pub fn make_plan(alloc: Global, case: &Case) -> Result<Plan, CaseFault>
    ensures sound { IfOk result IsSound }
{
    let builds = builds(alloc, case)?;
    Ok(plan(alloc, &builds, Table::new(alloc)?)?)
}

fn builds(alloc: Global, case: &Case) -> Result<Vec<Build>, CaseFault>
    ensures ready { IfOk result (λ builds. All IsReady builds.items) }
{
    let mut builds = Vec::new(alloc);
    for entry in case.template.iter().chain(case.own.iter()) {
        if entry.word.as_str() == "build" {
            builds.push(build(alloc, case, entry)?)?;
        }
    }
    Ok(builds)
}

/// The build of a manifest that has the items itself.
fn build(alloc: Global, case: &Case, entry: &Entry) -> Result<Build, CaseFault>
    ensures ready { IfOk result IsReady }
{
    let Some(file) = case.find("file", entry.name.as_str()) else {
        return Err(Mistake::NotGiven.at(entry.line));
    };
    let bytes = Bytes::new(bytes_of(alloc, case, file)?);
    let settings = settings_of(alloc, case, entry)?;
    let mut fetchers = Vec::<SureFetcher>::new(alloc);
    match prepare(alloc, &settings, Ok(Some(bytes)), &mut fetchers) {
        Ok(ready) => Ok(ready.into_build()),
        Err(unbuilt) => Err(fault_of(&unbuilt, entry.line)),
    }
}

fn fault_of(unbuilt: &Unbuilt, line: usize) -> CaseFault {
    match unbuilt {
        Unbuilt::NoMemory => CaseFault::NoMemory(AllocError),
        _ => Mistake::NoBuild.at(line),
    }
}

/// The settings of a build, of which its exports and checkpoints count.
fn settings_of(alloc: Global, case: &Case, entry: &Entry) -> Result<Settings, NoMemory> {
    Ok(Settings {
        store: None,
        output: Text::new(alloc, "")?,
        limit: 0,
        workers: 1,
        exports: List::new(names(alloc, entry.value.as_str())?),
        checkpoints: List::new(checkpoints(alloc, case)?),
        mirrors: List::new(Vec::new(alloc)),
        log: false,
        manifests: List::new(Vec::new(alloc)),
    })
}

fn names(alloc: Global, text: &str) -> Result<Vec<Text>, NoMemory> {
    let mut names = Vec::new(alloc);
    for name in text.split(',') {
        names.push(Text::new(alloc, name)?)?;
    }
    Ok(names)
}

/// What came at a section, and `None` where a plan has no such section.
pub fn section(alloc: Global, plan: &Plan, due: &Entry) -> Result<Option<String>, NoMemory> {
    let text = match due.name.as_str() {
        "tasks" => task_lines(alloc, plan)?,
        "builds" => build_lines(alloc, plan)?,
        "recipes" => format!(in alloc; "{}", plan.table.recipes().len())?,
        "blobs" => format!(in alloc; "{}", plan.table.blobs().len())?,
        _ => return Ok(None),
    };
    Ok(Some(text))
}

fn task_lines(alloc: Global, plan: &Plan) -> Result<String, NoMemory> {
    let mut lines = String::new(alloc);
    for task in plan.tasks.as_slice() {
        lines.push_str("keys")?;
        for key in task.chain.as_slice() {
            write!(lines, " {}", key.0)?;
        }
        lines.push_str(", marked")?;
        for key in task.marked.as_slice() {
            write!(lines, " {}", key.0)?;
        }
        lines.push_str(", after")?;
        for number in task.deps.as_slice() {
            write!(lines, " {}", number.0)?;
        }
        lines.push('\n')?;
    }
    Ok(lines)
}

fn build_lines(alloc: Global, plan: &Plan) -> Result<String, NoMemory> {
    let mut lines = String::new(alloc);
    for numbers in plan.builds.as_slice() {
        lines.push_str("tasks")?;
        for number in numbers.as_slice() {
            write!(lines, " {}", number.0)?;
        }
        lines.push('\n')?;
    }
    Ok(lines)
}
