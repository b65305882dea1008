//! The tasks of chains.
ghost use Rattle.std.specs.Prelude.{◌≡◌, ◌≤◌, ◌++◌, Some, IfOk, OnOk, length, map, filter, reverse, option_copied, slice_get};
ghost use Rattle.std.specs.List.{flat_map};
ghost use Rattle.std.specs.Map.{values_of};
ghost use Rattle.osb_recipe.specs.Interning.{place_in, interned, interned_all};
ghost use Rattle.osb_recipe.specs.Plans.{ref_keys, build_keys, input_keys, has_key, ends_with, ends_task, recipe_needs, deps_of};
ghost use Rattle.osb_plan.specs.Planning.{same_chain, task_chains, task_numbers, task_of};

use crate::stages::last_of;
use osb_base::{Key, List, NoMemory, TaskNo, Text};
use osb_recipe::{InputRecipe, Recipe, Table, Task, TreeRef};
use std::alloc::Global;

// ---- equal chains are one task

pub(crate) fn task_chains(
    alloc: Global,
    builds: &[List<(usize, List<Key>)>],
) -> Result<Vec<List<Key>>, NoMemory>
    ensures tasks { IfOk result (λ tasks. tasks.items ≡ task_chains builds.now) }
{
    let mut tasks = Vec::new(alloc);
    for chains in builds {
        add_chains(alloc, chains.as_slice(), &mut tasks)?;
    }
    Ok(tasks)
}

fn add_chains(
    alloc: Global,
    chains: &[(usize, List<Key>)],
    tasks: &mut Vec<List<Key>>,
) -> Result<(), NoMemory>
    ensures { OnOk result (tasks.new.items ≡ interned_all same_chain tasks.old.items (values_of chains.now)) }
{
    for (_, chain) in chains {
        add_chain(alloc, chain.as_slice(), tasks)?;
    }
    Ok(())
}

fn add_chain(alloc: Global, chain: &[Key], tasks: &mut Vec<List<Key>>) -> Result<(), NoMemory>
    ensures { OnOk result (tasks.new.items ≡ interned same_chain tasks.old.items chain.now) }
{
    if place_of(tasks, chain) == tasks.len() {
        tasks.push(List::new(Vec::from_slice(alloc, chain)?))?;
    }
    Ok(())
}

/// The place of the first task that has the chain, or the number of tasks.
fn place_of(tasks: &[List<Key>], chain: &[Key]) -> usize
    ensures place { result ≡ place_in same_chain tasks.now chain.now }
    ensures within { result ≤ length tasks.now }
{
    for (place, task) in tasks.iter().enumerate() {
        if same_chain(chain, task.as_slice()) {
            return place;
        }
    }
    tasks.len()
}

fn same_chain(a: &[Key], b: &[Key]) -> bool
    ensures { result ≡ same_chain a.now b.now }
{
    if a.len() != b.len() {
        return false;
    }
    for (mine, others) in a.iter().zip(b) {
        if mine.0 != others.0 {
            return false;
        }
    }
    true
}

/// The tasks of each build's pipelines.
pub(crate) fn builds_numbers(
    alloc: Global,
    tasks: &[List<Key>],
    builds: &[List<(usize, List<Key>)>],
) -> Result<Vec<List<TaskNo>>, NoMemory>
    ensures { IfOk result (λ numbers. numbers.items ≡ map (task_numbers tasks.now) builds.now) }
{
    let mut numbers = Vec::new(alloc);
    for chains in builds {
        let made = task_numbers(alloc, tasks, chains.as_slice())?;
        numbers.push(List::new(made))?;
    }
    Ok(numbers)
}

fn task_numbers(
    alloc: Global,
    tasks: &[List<Key>],
    chains: &[(usize, List<Key>)],
) -> Result<Vec<TaskNo>, NoMemory>
    ensures { IfOk result (λ numbers. numbers.items ≡ task_numbers tasks.now chains.now) }
{
    let mut numbers = Vec::new(alloc);
    for (_, chain) in chains {
        numbers.push(TaskNo(place_of(tasks, chain.as_slice()) as u64))?;
    }
    Ok(numbers)
}

// ---- a task

/// The tasks of some chains, with the keys that are marked.
pub(crate) fn tasks_of(
    alloc: Global,
    table: &Table,
    chains: &[List<Key>],
    marked: &[Key],
) -> Result<Vec<Task>, NoMemory>
    ensures { IfOk result (λ tasks. tasks.items ≡ map (task_of table.now chains.now marked.now) chains.now) }
{
    let mut tasks = Vec::new(alloc);
    for chain in chains {
        tasks.push(task_of(alloc, table, chains, marked, chain.as_slice())?)?;
    }
    Ok(tasks)
}

fn task_of(
    alloc: Global,
    table: &Table,
    chains: &[List<Key>],
    marked: &[Key],
    chain: &[Key],
) -> Result<Task, NoMemory>
    ensures { IfOk result (λ task. task ≡ task_of table.now chains.now marked.now chain.now) }
{
    let kept = marked_last_first(alloc, marked, chain)?;
    let deps = deps_of(alloc, table, chains, chain)?;
    Ok(Task {
        chain: List::new(Vec::from_slice(alloc, chain)?),
        marked: List::new(kept),
        deps: List::new(deps),
    })
}

fn marked_last_first(alloc: Global, marked: &[Key], chain: &[Key]) -> Result<Vec<Key>, NoMemory>
    ensures { IfOk result (λ kept. kept.items ≡ filter (has_key marked.now) (reverse chain.now)) }
{
    chain
        .iter()
        .rev()
        .copied()
        .filter(|key| has_key(marked, *key))
        .collect(alloc)
}

fn has_key(keys: &[Key], key: Key) -> bool
    ensures { result ≡ has_key keys.now key }
{
    keys.iter().any(|held| held.0 == key.0)
}

// ---- what a task is built with

fn deps_of(
    alloc: Global,
    table: &Table,
    chains: &[List<Key>],
    chain: &[Key],
) -> Result<Vec<TaskNo>, NoMemory>
    ensures { IfOk result (λ deps. deps.items ≡ deps_of table.now chains.now chain.now) }
{
    let needs = needs_of(alloc, table.recipes(), chain)?;
    (0..chains.len())
        .filter(|number| ends_task(chains, &needs, *number))
        .map(|number| TaskNo(number as u64))
        .collect(alloc)
}

/// Whether the task of a number ends with one of some keys.
fn ends_task(chains: &[List<Key>], keys: &[Key], number: usize) -> bool
    ensures { result ≡ ends_task chains.now keys.now number }
{
    match chains.get(number) {
        Some(chain) => ends_with(keys, last_of(chain.as_slice())),
        None => false,
    }
}

fn ends_with(keys: &[Key], last: TreeRef) -> bool
    ensures { result ≡ ends_with keys.now last }
{
    match last {
        TreeRef::Empty => false,
        TreeRef::Of(key) => has_key(keys, key),
    }
}

/// The recipes whose trees are a build tree or an input of a key of a chain.
fn needs_of(alloc: Global, recipes: &[Recipe], chain: &[Key]) -> Result<Vec<Key>, NoMemory>
    ensures { IfOk result (λ needs. needs.items ≡ flat_map (λ key. recipe_needs (slice_get recipes.now key.0)) chain.now) }
{
    let mut needs = Vec::new(alloc);
    for key in chain {
        add_needs(recipes, *key, &mut needs)?;
    }
    Ok(needs)
}

fn add_needs(recipes: &[Recipe], key: Key, needs: &mut Vec<Key>) -> Result<(), NoMemory>
    ensures { OnOk result (needs.new.items ≡ needs.old.items ++ recipe_needs (slice_get recipes.now key.0)) }
{
    match recipe_at(recipes, key) {
        Some(recipe) => add_recipe_needs(recipe, needs),
        None => Ok(()),
    }
}

fn recipe_at(recipes: &[Recipe], key: Key) -> Option<&Recipe>
    ensures { option_copied result ≡ slice_get recipes.now key.0 }
{
    recipes.get(key.0 as usize)
}

fn add_recipe_needs(recipe: &Recipe, needs: &mut Vec<Key>) -> Result<(), NoMemory>
    ensures { OnOk result (needs.new.items ≡ needs.old.items ++ recipe_needs (Some recipe.now)) }
{
    add_build(recipe.build, needs)?;
    add_inputs(recipe.inputs.as_slice(), needs)?;
    Ok(())
}

fn add_build(build: Option<TreeRef>, needs: &mut Vec<Key>) -> Result<(), NoMemory>
    ensures { OnOk result (needs.new.items ≡ needs.old.items ++ build_keys build) }
{
    match build {
        Some(tree) => add_key(tree, needs),
        None => Ok(()),
    }
}

fn add_inputs(inputs: &[(Text, InputRecipe)], needs: &mut Vec<Key>) -> Result<(), NoMemory>
    ensures { OnOk result (needs.new.items ≡ needs.old.items ++ flat_map (λ input. input_keys input.1) inputs.now) }
{
    for (_, input) in inputs {
        add_input(input, needs)?;
    }
    Ok(())
}

fn add_input(input: &InputRecipe, needs: &mut Vec<Key>) -> Result<(), NoMemory>
    ensures { OnOk result (needs.new.items ≡ needs.old.items ++ input_keys input.now) }
{
    match input {
        InputRecipe::Tree(tree) => add_key(*tree, needs),
        InputRecipe::Files(_) => Ok(()),
    }
}

fn add_key(tree: TreeRef, needs: &mut Vec<Key>) -> Result<(), NoMemory>
    ensures { OnOk result (needs.new.items ≡ needs.old.items ++ ref_keys tree) }
{
    if let TreeRef::Of(key) = tree {
        needs.push(key)?;
    }
    Ok(())
}
