ghost use Rattle.std.specs.Prelude.{◌≡◌, ◌≢◌, ◌+◌, Err, option_copied};
ghost use Rattle.osb_recipe.specs.Works.{staged};

use crate::{Recipe, missing_tool};
use osb_base::Steps;
use osb_tree::{Inputs, StageFault, Tree};
use std::alloc::Global;
use std::sync::ledger::Ledger;

/// Runs one stage: what it makes of a tree, with the trees of its inputs by name, in a build tree, if any. It is one
/// step. After a fault the tree is gone.
pub fn run_stage<L: Ledger>(
    alloc: Global,
    recipe: &Recipe,
    base: Tree,
    build: Option<&Tree>,
    inputs: &Inputs,
    steps: &mut Steps<L>,
) -> Result<Tree, StageFault>
    ensures effect { result ≢ Err StageFault.NoMemory → result ≡ staged recipe.now.kind (option_copied build.entry) inputs.now base }
    ensures step { steps.new ≡ steps.old + 1 }
{
    steps.tick();
    let kind = recipe.kind.get();
    match missing_tool(alloc, kind, build)? {
        Some(path) => Err(StageFault::ToolMissing(path)),
        None => kind.apply(alloc, base, inputs),
    }
}
