//! The runs of a plan by a crew, and what is printed of them.
ghost use Rattle.std.specs.Prelude.{◌≡◌, ◌^◌, ◌<◌, ◌≤◌, ℕ, All, IfOk, List, length};
ghost use Rattle.osb_tree.specs.Chunks.{AreOfATree};
ghost use Rattle.osb_tree.specs.Trees.{Listing, tree_size};
ghost use Rattle.osb_cache.specs.Caches.{CanOpen};
ghost use Rattle.osb_cache.specs.declared.answers.Stored.{Stored as StoredData};
ghost use Rattle.osb_recipe.specs.Plans.{IsSound};

use crate::gates::NotingGate;
use crate::plans::make_plan;
use anyhow::{Result, bail};
use osb_base::{Bytes, MemExporter, NoMemory, Op};
use osb_cache::Stored;
use osb_export::export;
use osb_log::log_text;
use osb_machine::{Finished, Shared};
use osb_recipe::{Outcome, Plan};
use osb_tree::{Chunk, Tree};
use osb_words::Settings;
use osb_work::crew;
use sha2::{Digest as Hashing, Sha256};
use std::alloc::{AllocError, Global};
use std::fmt::Write;
use std::sync::Wait;
use std::thread::Threads;

/// The most bytes of a cache.
const MOST_BYTES: u64 = 1 << 62;

/// The most workers of a crew.
const MOST_WORKERS: u32 = 64;

/// The run of a crew from nothing, and another one over the entries that it left.
pub fn run_twice<R: Threads + Wait + Sync>(
    rt: &R,
    alloc: Global,
    settings: &Settings,
    manifests: Vec<Bytes>,
    holds: bool,
) -> Result<String> {
    let plan = make_plan(alloc, settings, manifests)?;
    let mut text = String::new(alloc);
    let first = run_once(
        rt,
        alloc,
        &plan,
        Vec::new(alloc),
        settings,
        holds,
        &mut text,
    )?;
    run_once(
        rt,
        alloc,
        &plan,
        first.entries.into_vec(),
        settings,
        holds,
        &mut text,
    )?;
    Ok(text)
}

/// The run of a crew over some entries.
fn run_once<R: Threads + Wait + Sync>(
    rt: &R,
    alloc: Global,
    plan: &Plan,
    opening: Vec<Stored<Chunk>>,
    settings: &Settings,
    holds: bool,
    text: &mut String,
) -> Result<Finished>
    requires sound { IsSound plan.now }
    requires can_open { (limit : ℕ) → limit ≤ 2 ^ 62 → CanOpen tree_size limit opening.items }
    requires known { All (λ stored. stored.key.0 < length plan.now.table.recipes) opening.items }
    requires trees { All (λ stored. AreOfATree stored.chunks) opening.items }
    ensures can_open { IfOk result (λ finished. (limit : ℕ) → limit ≤ 2 ^ 62 → CanOpen tree_size limit finished.entries) }
    ensures known { IfOk result (λ finished. All (λ stored. stored.key.0 < length plan.now.table.recipes) finished.entries) }
    ensures trees { IfOk result (λ finished. All (λ stored. AreOfATree stored.chunks) finished.entries) }
{
    let workers = settings.workers;
    if settings.limit > MOST_BYTES || workers < 1 || workers > MOST_WORKERS {
        bail!("a limit that no cache has, or a number that no crew has");
    }
    let gate = NotingGate::new(holds);
    let shared = Shared::open(alloc, plan, opening, settings.limit)?;
    let finished = crew(rt, alloc, plan, shared, workers, &gate)?;
    write_run(alloc, settings, &finished, &gate, text)?;
    Ok(finished)
}

/// How each task ended, what the gate saw, and with the log its text.
fn write_run(
    alloc: Global,
    settings: &Settings,
    finished: &Finished,
    gate: &NotingGate,
    text: &mut String,
) -> Result<(), NoMemory> {
    for outcome in finished.outcomes.as_slice() {
        write_outcome(alloc, outcome, text)?;
    }
    write!(text, "passes {}, alone {}\n", gate.passes(), gate.alone())?;
    if settings.log {
        let log = log_text(alloc, &finished.opened, finished.log.as_slice())?;
        text.push_str(String::from_utf8_lossy(alloc, log.as_slice())?.as_str())?;
    }
    Ok(())
}

fn write_outcome(alloc: Global, outcome: &Outcome, text: &mut String) -> Result<(), NoMemory> {
    match outcome {
        Outcome::Tree(tree) => write_tree(alloc, tree.get(), text),
        Outcome::Fault(stage, fault) => write!(text, "fault {stage} {fault:?}\n"),
        Outcome::Blocked => text.push_str("blocked\n"),
        Outcome::NoMemory => text.push_str("no memory\n"),
    }
}

/// The size of a tree, and the SHA-256 of its files' bytes, in path order, and of its list.
fn write_tree(alloc: Global, tree: &Tree, text: &mut String) -> Result<(), NoMemory> {
    let mut exporter = MemExporter::new(alloc, Vec::new(alloc));
    if export(alloc, tree, "tree", &mut exporter).is_err() {
        return Err(AllocError);
    }
    let mut hasher = Sha256::new();
    for op in exporter.done() {
        match op {
            Op::File { bytes, .. } | Op::Finish { list: bytes, .. } => {
                hasher.update(bytes.as_slice());
            }
            Op::Dir { .. } | Op::Link { .. } => {}
        }
    }
    let digest = hex::encode(alloc, hasher.finalize().as_slice())?;
    write!(text, "tree {} {}\n", tree.size(), digest.as_str())
}
