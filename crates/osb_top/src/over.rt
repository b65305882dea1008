//! A run over its settings, a store, and what the shelf gave.
ghost use Rattle.std.specs.Prelude.{◌≡◌, ◌++◌, [], Bool, List, Result, IfOk, map, string_bytes};
ghost use Rattle.std.specs.List.{list_all};
ghost use Rattle.osb_base.specs.Fetchers.{FetcherState};
ghost use Rattle.osb_sources.specs.Rounds.{IsThinned};
ghost use Rattle.osb_store.specs.Texts.{store_text};
ghost use Rattle.osb_builder.specs.Stores.{store_after};
ghost use Rattle.osb_answers.specs.Exports.{is_exported};
ghost use Rattle.osb_top.specs.Runs.{out_text, is_done, status_of, IsRunOver};
ghost use Rattle.osb_top.specs.Steps.{Finishes};
ghost use Rattle.osb_top.specs.Wholes.{IsUncalled};

use crate::Status;
use crate::builds::{Built, build_all};
use crate::prepares::prepare_all;
use crate::starts::{LoadedStore, RunSettings};
use crate::stops::lack_memory;
use crate::stores::save;
use crate::writes::write_bytes;
use osb_answers::{Answer, ExportAnswer, Exported, answers_text, export_builds};
use osb_base::{Bytes, Exporter, Fetcher, Keeper, NoMemory, ReadStop, Sink, Steps, WriteStop};
use osb_log::log_text;
use osb_machine::Finished;
use osb_recipe::Plan;
use osb_store::Store;
use osb_words::Settings;
use std::alloc::Global;
use std::sync::ledger::Ledger;

/// A run by one worker over a store, and over what the shelf gave for each manifest. The ticks are the stages that are
/// run.
pub fn run_serial_over<L: Ledger, K: Keeper, E: Exporter, O: Sink>(
    alloc: Global,
    settings: &RunSettings,
    store: LoadedStore,
    reads: Vec<Result<Option<Bytes>, ReadStop>>,
    fetchers: &mut Vec<Box<dyn Fetcher>>,
    keeper: &mut K,
    exporter: &mut E,
    out: &mut O,
    steps: &mut Steps<L>,
) -> Status
    ensures run { IsRunOver settings.now 1 store reads.items
        (record {
          fetchers = record { before = map (λ b. fetcher_state b) fetchers.old.items; now = map (λ b. fetcher_state b) fetchers.new.items };
          keeper = record { before = K.held keeper.old; now = K.held keeper.new; faults = record { before = K.keeper_faults keeper.old; now = K.keeper_faults keeper.new } };
          exporter = record { before = E.done exporter.old; now = E.done exporter.new; faults = record { before = E.export_faults exporter.old; now = E.export_faults exporter.new } };
          sink = record { before = O.taken out.old; now = O.taken out.new; faults = record { before = O.sink_faults out.old; now = O.sink_faults out.new } };
          stages = record { before = steps.old; now = steps.new };
        })
        result.0 }
    ensures uncalled { IsUncalled settings.now.store (record { before = K.held keeper.old; now = K.held keeper.new; faults = record { before = K.keeper_faults keeper.old; now = K.keeper_faults keeper.new } }) }
    ensures left { IsThinned (map (λ b. fetcher_state b) fetchers.old.items) (map (λ b. fetcher_state b) fetchers.new.items) }
{
    let settings = settings.get();
    let Ok(readies) = prepare_all(alloc, settings, reads, fetchers) else {
        return lack_memory(out);
    };
    let Ok(built) = build_all(alloc, settings, readies, store, steps) else {
        return lack_memory(out);
    };
    let Built {
        plan,
        finished,
        came,
    } = built;
    let Ok(answers) = export_builds(alloc, came, exporter) else {
        return lack_memory(out);
    };
    finish(alloc, settings, plan, finished, &answers, keeper, out)
}

/// Saves the store, and writes the answers and the log.
fn finish<K: Keeper, O: Sink>(
    alloc: Global,
    settings: &Settings,
    plan: Plan,
    finished: Finished,
    answers: &[Answer],
    keeper: &mut K,
    out: &mut O,
) -> Status
    ensures finishes { Finishes settings.now (store_text (store_after plan finished)) answers.now finished
        (record { before = K.held keeper.old; now = K.held keeper.new; faults = record { before = K.keeper_faults keeper.old; now = K.keeper_faults keeper.new } })
        (record { before = O.taken out.old; now = O.taken out.new; faults = record { before = O.sink_faults out.old; now = O.sink_faults out.new } })
        result.0 }
{
    let text = out_text(alloc, settings, answers, &finished);
    let store = Store {
        table: plan.table,
        entries: finished.entries,
    };
    let saved = save(alloc, &settings.store, &store, keeper);
    match text {
        Ok(text) => write_bytes(text.as_slice(), status_of(&saved, answers), out),
        Err(_) => Status(7),
    }
}

/// The answer lines, and with the log its text.
fn out_text(
    alloc: Global,
    settings: &Settings,
    answers: &[Answer],
    finished: &Finished,
) -> Result<Vec<u8>, NoMemory>
    ensures text { IfOk result (λ text. text.items ≡ out_text settings.now answers.now finished.now) }
{
    let mut text = answers_text(alloc, answers)?.into_bytes();
    if settings.log {
        let log = log_text(alloc, &finished.opened, finished.log.as_slice())?;
        text.extend_from_slice(log.as_slice())?;
    }
    Ok(text)
}

fn status_of(saved: &Result<(), WriteStop>, answers: &[Answer]) -> u8
    ensures { result ≡ status_of saved.now answers.now }
{
    match saved {
        Ok(()) => answers_status(answers),
        Err(stop) => stop_status(stop),
    }
}

fn stop_status(stop: &WriteStop) -> u8
    ensures { result ≡ status_of (Err stop.now) [] }
{
    match stop {
        WriteStop::Failed => 5,
        WriteStop::NoMemory => 7,
    }
}

fn answers_status(answers: &[Answer]) -> u8
    ensures { result ≡ status_of (Ok tt) answers.now }
{
    if are_done(answers) { 0 } else { 1 }
}

fn are_done(answers: &[Answer]) -> bool
    ensures { result ≡ list_all is_done answers.now }
{
    answers.iter().all(is_done)
}

fn is_done(answer: &Answer) -> bool
    ensures { result ≡ is_done answer.now }
{
    match answer {
        Answer::Unbuilt(_) => false,
        Answer::Exports(exports) => all_exported(exports.as_slice()),
    }
}

fn all_exported(exports: &[Exported]) -> bool
    ensures { result ≡ list_all (λ exported. is_exported exported.answer) exports.now }
{
    exports.iter().all(|exported| matches!(exported.answer, ExportAnswer::Exported(_)))
}
