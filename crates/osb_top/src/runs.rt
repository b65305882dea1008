//! The runs that the program makes.
ghost use Rattle.std.specs.Prelude.{◌≡◌, ◌⊎◌, ℕ, IfOk, map, string_bytes, count_by};
ghost use Rattle.std.specs.List.{AllZip};
ghost use Rattle.osb_base.specs.Fetchers.{FetcherState};
ghost use Rattle.osb_sources.specs.Rounds.{IsThinned};
ghost use Rattle.osb_words.specs.Requests.{request_of, IsTaken, AreRefused};
ghost use Rattle.osb_answers.specs.Exports.{RoseBy};
ghost use Rattle.osb_top.specs.Stops.{Stops, no_memory};
ghost use Rattle.osb_top.specs.Readings.{IsCutGiven};
ghost use Rattle.osb_top.specs.Wholes.{IsGiven, is_fault, Reads, OpensStore, IsUncalled, Loads, IsRun};
ghost use Rattle.osb_top.specs.Complete.{IsQuiet, IsCompleteRun};

use crate::over::run_serial_over;
use crate::starts::{LoadedStore, RunSettings};
use crate::stops::{lack_memory, refuse_load, refuse_store, refuse_words};
use crate::stores::load;
use osb_base::{Bytes, Exporter, Fetcher, Keeper, NoMemory, ReadStop, Shelf, Sink, Steps, Text};
use osb_builder::open_store;
use osb_words::{WordsFault, settings};
use std::alloc::Global;
use std::sync::ledger::Ledger;

/// How a run ended: 0 where every tree is exported, 1 where a build or an export has another answer, 2 where the words are
/// refused, 3 where the store was not loaded, 4 where it is none, 5 where it was not saved, 6 where the sink failed, 7 for
/// want of memory outside one build.
#[derive(Clone, Copy, Debug, PartialEq, Eq)]
pub struct Status(pub u8);

/// Builds manifests by one worker, and exports some of their pipelines, as the words ask. The ticks are the stages that
/// are run.
pub fn run_serial<L: Ledger, H: Shelf, K: Keeper, E: Exporter, O: Sink>(
    alloc: Global,
    words: &[String],
    shelf: &mut H,
    fetchers: &mut Vec<Box<dyn Fetcher>>,
    keeper: &mut K,
    exporter: &mut E,
    out: &mut O,
    steps: &mut Steps<L>,
) -> Status
    ensures run { IsRun (λ settings. 1) (AreRefused (map string_bytes words.now)) (request_of (map string_bytes words.now))
        (record { files = H.files shelf.old; faults = record { before = H.shelf_faults shelf.old; now = H.shelf_faults shelf.new } })
        (record {
          fetchers = record { before = map (λ b. fetcher_state b) fetchers.old.items; now = map (λ b. fetcher_state b) fetchers.new.items };
          keeper = record { before = K.held keeper.old; now = K.held keeper.new; faults = record { before = K.keeper_faults keeper.old; now = K.keeper_faults keeper.new } };
          exporter = record { before = E.done exporter.old; now = E.done exporter.new; faults = record { before = E.export_faults exporter.old; now = E.export_faults exporter.new } };
          sink = record { before = O.taken out.old; now = O.taken out.new; faults = record { before = O.sink_faults out.old; now = O.sink_faults out.new } };
          stages = record { before = steps.old; now = steps.new };
        })
        result.0 }
    ensures complete { IsTaken (map string_bytes words.now)
        → IsQuiet
        (record { files = H.files shelf.old; faults = record { before = H.shelf_faults shelf.old; now = H.shelf_faults shelf.new } })
        (record {
          fetchers = record { before = map (λ b. fetcher_state b) fetchers.old.items; now = map (λ b. fetcher_state b) fetchers.new.items };
          keeper = record { before = K.held keeper.old; now = K.held keeper.new; faults = record { before = K.keeper_faults keeper.old; now = K.keeper_faults keeper.new } };
          exporter = record { before = E.done exporter.old; now = E.done exporter.new; faults = record { before = E.export_faults exporter.old; now = E.export_faults exporter.new } };
          sink = record { before = O.taken out.old; now = O.taken out.new; faults = record { before = O.sink_faults out.old; now = O.sink_faults out.new } };
          stages = record { before = steps.old; now = steps.new };
        })
        → IsCompleteRun (request_of (map string_bytes words.now))
        (record { files = H.files shelf.old; faults = record { before = H.shelf_faults shelf.old; now = H.shelf_faults shelf.new } })
        (record {
          fetchers = record { before = map (λ b. fetcher_state b) fetchers.old.items; now = map (λ b. fetcher_state b) fetchers.new.items };
          keeper = record { before = K.held keeper.old; now = K.held keeper.new; faults = record { before = K.keeper_faults keeper.old; now = K.keeper_faults keeper.new } };
          exporter = record { before = E.done exporter.old; now = E.done exporter.new; faults = record { before = E.export_faults exporter.old; now = E.export_faults exporter.new } };
          sink = record { before = O.taken out.old; now = O.taken out.new; faults = record { before = O.sink_faults out.old; now = O.sink_faults out.new } };
          stages = record { before = steps.old; now = steps.new };
        })
        result.0 }
    ensures left { IsThinned (map (λ b. fetcher_state b) fetchers.old.items) (map (λ b. fetcher_state b) fetchers.new.items) }
{
    match settings(alloc, words) {
        Ok(settings) => {
            let settings = RunSettings::new(settings);
            run_asked(
                alloc, &settings, shelf, fetchers, keeper, exporter, out, steps,
            )
        }
        Err(WordsFault::Refused) => refuse_words(out),
        Err(WordsFault::NoMemory) => lack_memory(out),
    }
}

fn run_asked<L: Ledger, H: Shelf, K: Keeper, E: Exporter, O: Sink>(
    alloc: Global,
    settings: &RunSettings,
    shelf: &mut H,
    fetchers: &mut Vec<Box<dyn Fetcher>>,
    keeper: &mut K,
    exporter: &mut E,
    out: &mut O,
    steps: &mut Steps<L>,
) -> Status
    ensures run { Loads settings.now 1
        (record { files = H.files shelf.old; faults = record { before = H.shelf_faults shelf.old; now = H.shelf_faults shelf.new } })
        (record {
          fetchers = record { before = map (λ b. fetcher_state b) fetchers.old.items; now = map (λ b. fetcher_state b) fetchers.new.items };
          keeper = record { before = K.held keeper.old; now = K.held keeper.new; faults = record { before = K.keeper_faults keeper.old; now = K.keeper_faults keeper.new } };
          exporter = record { before = E.done exporter.old; now = E.done exporter.new; faults = record { before = E.export_faults exporter.old; now = E.export_faults exporter.new } };
          sink = record { before = O.taken out.old; now = O.taken out.new; faults = record { before = O.sink_faults out.old; now = O.sink_faults out.new } };
          stages = record { before = steps.old; now = steps.new };
        })
        result.0 }
    ensures left { IsThinned (map (λ b. fetcher_state b) fetchers.old.items) (map (λ b. fetcher_state b) fetchers.new.items) }
{
    match load(alloc, &settings.get().store, keeper) {
        Ok(loaded) => run_loaded(
            alloc, settings, loaded, shelf, fetchers, keeper, exporter, out, steps,
        ),
        Err(ReadStop::Failed) => refuse_load(out),
        Err(ReadStop::NoMemory) => lack_memory(out),
    }
}

/// A run over what the keeper gave.
fn run_loaded<L: Ledger, H: Shelf, K: Keeper, E: Exporter, O: Sink>(
    alloc: Global,
    settings: &RunSettings,
    loaded: Option<Bytes>,
    shelf: &mut H,
    fetchers: &mut Vec<Box<dyn Fetcher>>,
    keeper: &mut K,
    exporter: &mut E,
    out: &mut O,
    steps: &mut Steps<L>,
) -> Status
    ensures run { OpensStore settings.now 1 loaded
        (record { files = H.files shelf.old; faults = record { before = H.shelf_faults shelf.old; now = H.shelf_faults shelf.new } })
        (record {
          fetchers = record { before = map (λ b. fetcher_state b) fetchers.old.items; now = map (λ b. fetcher_state b) fetchers.new.items };
          keeper = record { before = K.held keeper.old; now = K.held keeper.new; faults = record { before = K.keeper_faults keeper.old; now = K.keeper_faults keeper.new } };
          exporter = record { before = E.done exporter.old; now = E.done exporter.new; faults = record { before = E.export_faults exporter.old; now = E.export_faults exporter.new } };
          sink = record { before = O.taken out.old; now = O.taken out.new; faults = record { before = O.sink_faults out.old; now = O.sink_faults out.new } };
          stages = record { before = steps.old; now = steps.new };
        })
        result.0
        ⊎ Stops
        (record {
          fetchers = record { before = map (λ b. fetcher_state b) fetchers.old.items; now = map (λ b. fetcher_state b) fetchers.new.items };
          keeper = record { before = K.held keeper.old; now = K.held keeper.new; faults = record { before = K.keeper_faults keeper.old; now = K.keeper_faults keeper.new } };
          exporter = record { before = E.done exporter.old; now = E.done exporter.new; faults = record { before = E.export_faults exporter.old; now = E.export_faults exporter.new } };
          sink = record { before = O.taken out.old; now = O.taken out.new; faults = record { before = O.sink_faults out.old; now = O.sink_faults out.new } };
          stages = record { before = steps.old; now = steps.new };
        })
        no_memory result.0 }
    ensures uncalled { IsUncalled settings.now.store (record { before = K.held keeper.old; now = K.held keeper.new; faults = record { before = K.keeper_faults keeper.old; now = K.keeper_faults keeper.new } }) }
    ensures left { IsThinned (map (λ b. fetcher_state b) fetchers.old.items) (map (λ b. fetcher_state b) fetchers.new.items) }
{
    match open_store(alloc, loaded) {
        Ok(store) => {
            let store = LoadedStore::new(store);
            run_opened(
                alloc, settings, store, shelf, fetchers, keeper, exporter, out, steps,
            )
        }
        Err(refusal) => refuse_store(alloc, refusal, out),
    }
}

/// A run over its store: what the shelf gives for all manifests is read before the first of them is prepared.
fn run_opened<L: Ledger, H: Shelf, K: Keeper, E: Exporter, O: Sink>(
    alloc: Global,
    settings: &RunSettings,
    store: LoadedStore,
    shelf: &mut H,
    fetchers: &mut Vec<Box<dyn Fetcher>>,
    keeper: &mut K,
    exporter: &mut E,
    out: &mut O,
    steps: &mut Steps<L>,
) -> Status
    ensures run { Reads settings.now 1 store
        (record { files = H.files shelf.old; faults = record { before = H.shelf_faults shelf.old; now = H.shelf_faults shelf.new } })
        (record {
          fetchers = record { before = map (λ b. fetcher_state b) fetchers.old.items; now = map (λ b. fetcher_state b) fetchers.new.items };
          keeper = record { before = K.held keeper.old; now = K.held keeper.new; faults = record { before = K.keeper_faults keeper.old; now = K.keeper_faults keeper.new } };
          exporter = record { before = E.done exporter.old; now = E.done exporter.new; faults = record { before = E.export_faults exporter.old; now = E.export_faults exporter.new } };
          sink = record { before = O.taken out.old; now = O.taken out.new; faults = record { before = O.sink_faults out.old; now = O.sink_faults out.new } };
          stages = record { before = steps.old; now = steps.new };
        })
        result.0
        ⊎ Stops
        (record {
          fetchers = record { before = map (λ b. fetcher_state b) fetchers.old.items; now = map (λ b. fetcher_state b) fetchers.new.items };
          keeper = record { before = K.held keeper.old; now = K.held keeper.new; faults = record { before = K.keeper_faults keeper.old; now = K.keeper_faults keeper.new } };
          exporter = record { before = E.done exporter.old; now = E.done exporter.new; faults = record { before = E.export_faults exporter.old; now = E.export_faults exporter.new } };
          sink = record { before = O.taken out.old; now = O.taken out.new; faults = record { before = O.sink_faults out.old; now = O.sink_faults out.new } };
          stages = record { before = steps.old; now = steps.new };
        })
        no_memory result.0 }
    ensures uncalled { IsUncalled settings.now.store (record { before = K.held keeper.old; now = K.held keeper.new; faults = record { before = K.keeper_faults keeper.old; now = K.keeper_faults keeper.new } }) }
    ensures left { IsThinned (map (λ b. fetcher_state b) fetchers.old.items) (map (λ b. fetcher_state b) fetchers.new.items) }
{
    let Ok(reads) = read_all(alloc, settings.get().manifests.as_slice(), shelf) else {
        return lack_memory(out);
    };
    run_serial_over(
        alloc, settings, store, reads, fetchers, keeper, exporter, out, steps,
    )
}

/// What the shelf gives for each name.
fn read_all<H: Shelf>(
    alloc: Global,
    names: &[Text],
    shelf: &mut H,
) -> Result<Vec<Result<Option<Bytes>, ReadStop>>, NoMemory>
    ensures given { IfOk result (λ reads. AllZip (IsCutGiven (H.files shelf.old)) names.now reads.items) }
    ensures faults { IfOk result (λ reads. RoseBy (count_by is_fault reads.items) (record { before = H.shelf_faults shelf.old; now = H.shelf_faults shelf.new })) }
    ensures files { H.files shelf.new ≡ H.files shelf.old }
{
    let mut reads = Vec::new(alloc);
    for name in names {
        reads.push(shelf.read(alloc, name.as_str()))?;
    }
    Ok(reads)
}
