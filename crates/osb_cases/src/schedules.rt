//! Runs of the machine: of one worker, and of a schedule.
ghost use Rattle.std.specs.Prelude.{◌≡◌, ◌^◌, ◌<◌, ◌≤◌, ℕ, All, IfOk, IfSome, List, OnOk, length};
ghost use Rattle.osb_tree.specs.Chunks.{AreOfATree};
ghost use Rattle.osb_tree.specs.Trees.{Listing, tree_size};
ghost use Rattle.osb_cache.specs.Caches.{CanOpen};
ghost use Rattle.osb_cache.specs.declared.answers.Stored.{Stored as StoredData};
ghost use Rattle.osb_recipe.specs.Plans.{IsSound};
ghost use Rattle.osb_state.specs.Schedules.{IsOpening};

use crate::boards::block_entry;
use crate::caches::limit_of;
use crate::cases::Case;
use crate::entries::Entry;
use crate::jobs::write_outcome;
use crate::mistakes::{CaseFault, Mistake};
use crate::plans::make_plan;
use osb_base::{NoMemory, Steps, Weighed};
use osb_cache::Stored;
use osb_job::Flag;
use osb_log::log_text;
use osb_machine::{Finished, Shared, run_schedule, serial};
use osb_recipe::Plan;
use osb_tree::{Chunk, WorkerNo};
use std::alloc::Global;
use std::fmt::Write;
use std::marker::Brand;
use std::sync::ledger::{Blank, Ledger};

/// The most workers of a machine.
const MOST_WORKERS: usize = 64;

/// What a run leaves, and the bytes that its cache counts at the end of a schedule.
#[derive(Drop)]
pub struct Left {
    finished: Finished,
    counted: Option<u64>,
}

/// The run of one worker over the plan of a case's builds.
pub fn run_alone(alloc: Global, case: &Case) -> Result<Left, CaseFault> {
    let plan = make_plan(alloc, case)?;
    let limit = limit_given(case)?;
    let shared = opened(alloc, &plan, first_given(case)?, limit)?;
    let finished = serial_by::<Brand>(alloc, &plan, shared, Blank::new(1))?;
    Ok(Left {
        finished,
        counted: None,
    })
}

/// The run of a case's schedule over the plan of its builds.
pub fn run_turns(alloc: Global, case: &Case) -> Result<Left, CaseFault> {
    let plan = make_plan(alloc, case)?;
    let limit = limit_given(case)?;
    let shared = opened(alloc, &plan, first_given(case)?, limit)?;
    let workers = workers_of(case)?;
    let schedule = schedule_of(alloc, block_entry(case, "schedule")?, workers)?;
    let machine = run_schedule(alloc, &plan, shared, workers, &schedule)?;
    let counted = Some(machine.shared.counted());
    let finished = machine.shared.finish(alloc)?;
    Ok(Left { finished, counted })
}

impl Left {
    /// What came at a section, and `None` where a run has no such section.
    pub fn section(&self, alloc: Global, due: &Entry) -> Result<Option<Vec<u8>>, CaseFault> {
        let text = match (due.name.as_str(), self.counted) {
            ("log", _) => {
                let log = self.finished.log.as_slice();
                let text = log_text(alloc, &self.finished.opened, log)?;
                return Ok(Some(Vec::from_slice(alloc, text.as_slice())?));
            }
            ("entries", _) => stored_lines(alloc, self.finished.entries.as_slice())?,
            ("outcomes", _) => self.outcome_lines(alloc)?,
            ("counted", Some(bytes)) => format!(in alloc; "{bytes}")?,
            _ => return Ok(None),
        };
        Ok(Some(text.into_bytes()))
    }

    fn outcome_lines(&self, alloc: Global) -> Result<String, CaseFault> {
        let mut lines = String::new(alloc);
        for outcome in self.finished.outcomes.as_slice() {
            write_outcome(alloc, &mut lines, outcome)?;
            lines.push('\n')?;
        }
        Ok(lines)
    }
}

/// The key and the size of each entry, first the one that was used first.
pub fn stored_lines(alloc: Global, entries: &[Stored<Chunk>]) -> Result<String, NoMemory> {
    let mut lines = String::new(alloc);
    for stored in entries {
        write!(lines, "{} {}\n", stored.key.0, weight_of(stored))?;
    }
    Ok(lines)
}

/// The bytes of an entry's chunks together.
fn weight_of(stored: &Stored<Chunk>) -> u64 {
    let mut bytes: u64 = 0;
    for chunk in stored.chunks.as_slice() {
        bytes = bytes.saturating_add(chunk.get().weight());
    }
    bytes
}

fn limit_given(case: &Case) -> Result<u64, CaseFault>
    ensures { IfOk result (λ limit. limit ≤ 2 ^ 62) }
{
    let given = case.needed("limit")?;
    limit_of(given.value.as_str(), given.line)
}

/// The limit of the run before, if there is one.
fn first_given(case: &Case) -> Result<Option<u64>, CaseFault>
    ensures { IfOk result (λ first. IfSome first (λ limit. limit ≤ 2 ^ 62)) }
{
    match case.find("first", "") {
        Some(given) => Ok(Some(limit_of(given.value.as_str(), given.line)?)),
        None => Ok(None),
    }
}

/// The shared state of a limit, with the entries that a run of one worker with the first limit leaves.
fn opened(alloc: Global, plan: &Plan, first: Option<u64>, limit: u64) -> Result<Shared, NoMemory>
    requires sound { IsSound plan.now }
    requires limit { limit ≤ 2 ^ 62 }
    requires first { IfSome first (λ limit. limit ≤ 2 ^ 62) }
    ensures opened { IfOk result (λ shared. (opening : List (StoredData Listing)) × (limit : ℕ) × IsOpening plan.now opening limit shared) }
{
    let opening = opening(alloc, plan, first)?;
    Ok(Shared::open(alloc, plan, opening, limit)?)
}

fn opening(alloc: Global, plan: &Plan, first: Option<u64>) -> Result<Vec<Stored<Chunk>>, NoMemory>
    requires sound { IsSound plan.now }
    requires first { IfSome first (λ limit. limit ≤ 2 ^ 62) }
    ensures can_open { IfOk result (λ opening. (limit : ℕ) → limit ≤ 2 ^ 62 → CanOpen tree_size limit opening.items) }
    ensures known { IfOk result (λ opening. All (λ stored. stored.key.0 < length plan.now.table.recipes) opening.items) }
    ensures trees { IfOk result (λ opening. All (λ stored. AreOfATree stored.chunks) opening.items) }
{
    let nothing = Vec::new(alloc);
    let Some(limit) = first else {
        return Ok(nothing);
    };
    let shared = Shared::open(alloc, plan, nothing, limit)?;
    let finished = serial_by::<Brand>(alloc, plan, shared, Blank::new(1))?;
    Ok(finished.entries.into_vec())
}

fn serial_by<L: Ledger>(
    alloc: Global,
    plan: &Plan,
    shared: Shared,
    blank: Blank,
) -> Result<Finished, NoMemory>
    requires name { blank.name ≡ L.name }
    requires parts { blank.parts ≡ L.parts }
    requires some { 0 < blank.parts }
    requires sound { IsSound plan.now }
    requires opened { (opening : List (StoredData Listing)) × (limit : ℕ) × IsOpening plan.now opening limit shared }
    ensures can_open { IfOk result (λ finished. (limit : ℕ) → limit ≤ 2 ^ 62 → CanOpen tree_size limit finished.entries) }
    ensures known { IfOk result (λ finished. All (λ stored. stored.key.0 < length plan.now.table.recipes) finished.entries) }
    ensures trees { IfOk result (λ finished. All (λ stored. AreOfATree stored.chunks) finished.entries) }
{
    let mut steps = Steps::<L>::new(blank);
    serial(alloc, plan, shared, &mut steps)
}

fn workers_of(case: &Case) -> Result<u32, CaseFault>
    ensures workers { IfOk result (λ workers. (1 ≤ workers) × (workers ≤ 64)) }
{
    match case.number("workers")? {
        Some(workers @ 1..=MOST_WORKERS) => Ok(workers as u32),
        _ => Err(Mistake::NoNumber.at(case.line)),
    }
}

/// The turns of some lines: each is the number of a worker, with `a` behind it where memory is refused to its action, and
/// `w` where it is refused to the work behind the reply.
fn schedule_of(
    alloc: Global,
    given: &Entry,
    workers: u32,
) -> Result<Vec<(WorkerNo, Flag)>, CaseFault>
    ensures within { IfOk result (λ schedule. All (λ turn. turn.0.0 < workers) schedule.items) }
{
    let mut schedule = Vec::new(alloc);
    for (place, text) in given.block.iter().enumerate() {
        add_turns(
            &mut schedule,
            text.as_str(),
            workers,
            given.block_line(place),
        )?;
    }
    Ok(schedule)
}

fn add_turns(
    schedule: &mut Vec<(WorkerNo, Flag)>,
    text: &str,
    workers: u32,
    line: usize,
) -> Result<(), CaseFault>
    requires within { All (λ turn. turn.0.0 < workers) schedule.old.items }
    ensures within { OnOk result (All (λ turn. turn.0.0 < workers) schedule.new.items) }
{
    for word in text.split(' ') {
        let Some(turn) = turn_of(word, workers) else {
            return Err(Mistake::NoNumber.at(line));
        };
        schedule.push(turn)?;
    }
    Ok(())
}

fn turn_of(word: &str, workers: u32) -> Option<(WorkerNo, Flag)>
    ensures within { IfSome result (λ turn. turn.0.0 < workers) }
{
    let (number, flag) = match (word.strip_suffix('a'), word.strip_suffix('w')) {
        (Some(number), _) => (number, Flag::ActRefused),
        (_, Some(number)) => (number, Flag::WorkRefused),
        _ => (word, Flag::Fine),
    };
    let number = number.parse::<u32>().ok()?;
    if number >= workers {
        return None;
    }
    Some((WorkerNo(number), flag))
}
