ghost use Rattle.std.specs.Prelude.{◌≡◌, IfOk};
ghost use Rattle.std.specs.List.{All, AllByRecursion};
ghost use Rattle.std.specs.Map.{values_of};
ghost use Rattle.osb_recipe.specs.Plans.{IsSound};
ghost use Rattle.osb_plan.specs.Planning.{planned};
ghost use Rattle.osb_plan.specs.Held.{IsReadPipeline};
ghost use Rattle.osb_plan.specs.Bridge.{IsReady, BridgesTo};

use crate::Build;
use crate::chains::chains_of_builds;
use crate::marks::all_marked;
use crate::tasks::{builds_numbers, task_chains, tasks_of};
use osb_base::{List, NoMemory};
use osb_recipe::{Plan, Table};
use std::alloc::Global;

/// The tasks of some builds, and the tasks that each build's pipelines are. The table may have other builds' recipes.
pub fn plan(alloc: Global, builds: &[Build], table: Table) -> Result<Plan, NoMemory>
    requires ready { All IsReady builds.now }
    ensures planned { IfOk result (λ plan. plan ≡ planned table builds.now) }
    ensures sound { IfOk result IsSound }
    ensures bridge { IfOk result (BridgesTo builds.now) }
{
    let _recipes = table.recipes();
    make_plan(alloc, builds, table)
}

#[tactic(auto, unfolding(crate::specs::Planning::planned))]
fn make_plan(alloc: Global, builds: &[Build], mut table: Table) -> Result<Plan, NoMemory>
    requires read { All (λ build. AllByRecursion IsReadPipeline (values_of build.manifest.pipelines)) builds.now }
    ensures { IfOk result (λ plan. plan ≡ planned table builds.now) }
{
    let chains = chains_of_builds(alloc, builds, &mut table)?;
    let tasks = task_chains(alloc, &chains)?;
    let marked = all_marked(alloc, builds, &chains)?;
    let made = tasks_of(alloc, &table, &tasks, &marked)?;
    let numbers = builds_numbers(alloc, &tasks, &chains)?;
    Ok(Plan {
        table,
        tasks: List::new(made),
        builds: List::new(numbers),
    })
}
