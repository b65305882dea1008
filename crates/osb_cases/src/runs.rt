ghost use Rattle.std.specs.Prelude.{◌≡◌, ◌<◌, IfOk, OnOk};
ghost use Rattle.osb_base.specs.Shelves.{AreFiles};

use crate::cases::Case;
use crate::entries::Entry;
use crate::kinds::Kind;
use crate::mirrors::{is_mirror, mirrors};
use crate::mistakes::{CaseFault, Mistake};
use crate::nodes::op_line;
use crate::parts::bytes_of;
use crate::schedules::stored_lines;
use osb_base::{
    Bytes, Fetcher, MemExporter, MemKeeper, MemShelf, MemSink, NoMemory, Op, Steps, Text,
    find_named,
};
use osb_store::{StoreRefusal, read_store};
use osb_top::{Status, inspect, run_serial};
use std::alloc::{AllocError, Global};
use std::marker::Brand;
use std::sync::ledger::{Blank, Ledger};

/// The room of a sink where a case says nothing of it.
const ROOM: usize = 65_536;

/// Which run of a case is made.
#[derive(Clone, Copy, Debug, PartialEq, Eq)]
pub enum Turn {
    /// The one of its line `before`, at which no call fails.
    Before,
    Own,
}

/// What a run is made over, beside its mirrors.
#[derive(Drop)]
struct Objects {
    shelf: MemShelf,
    keeper: MemKeeper,
    exporter: MemExporter,
    out: MemSink,
}

/// What a run left.
#[derive(Drop)]
pub struct Run {
    status: u8,
    objects: Objects,
    /// How many are left of the mirrors.
    mirrors: usize,
}

/// Runs a case through `run_serial` or `inspect`, over objects in memory.
pub fn run_case(alloc: Global, case: &Case) -> Result<Run, CaseFault> {
    check_objects(case)?;
    let kept = kept_before(alloc, case)?;
    let words = words(alloc, case)?;
    make_run::<Brand>(alloc, case, Turn::Own, &words, kept, Blank::new(1))
}

/// What the keeper holds at first: where the case has a run before, what that one leaves.
fn kept_before(alloc: Global, case: &Case) -> Result<Option<Bytes>, CaseFault> {
    let given = kept_given(alloc, case)?;
    let Some(entry) = case.find("before", "") else {
        return Ok(given);
    };
    let mut words = Vec::new(alloc);
    add_split(alloc, entry.value.as_str(), &mut words)?;
    let run = make_run::<Brand>(alloc, case, Turn::Before, &words, given, Blank::new(1))?;
    match run.objects.keeper.held() {
        Some(bytes) => Ok(Some(Bytes::new(Vec::from_slice(alloc, bytes)?))),
        None => Err(Mistake::NothingKept.at(entry.line)),
    }
}

fn kept_given(alloc: Global, case: &Case) -> Result<Option<Bytes>, CaseFault> {
    match case.find("kept", "") {
        Some(entry) => Ok(Some(Bytes::new(bytes_of(alloc, case, entry)?))),
        None => Ok(None),
    }
}

/// A run whose stages are counted from 0.
fn make_run<L: Ledger>(
    alloc: Global,
    case: &Case,
    turn: Turn,
    words: &[String],
    kept: Option<Bytes>,
    blank: Blank,
) -> Result<Run, CaseFault>
    requires name { blank.name ≡ L.name }
    requires parts { blank.parts ≡ L.parts }
    requires some { 0 < blank.parts }
{
    let mut objects = objects_of(alloc, case, turn, kept)?;
    let mut fetchers: Vec<Box<dyn Fetcher>> = Vec::new(alloc);
    for mirror in mirrors(alloc, case, turn)? {
        fetchers.push(Box::new(alloc, mirror)?)?;
    }
    let mut steps = Steps::<L>::new(blank);
    let status = match case.kind {
        Kind::Inspect => inspect(alloc, words, &mut objects.shelf, &mut objects.out),
        _ => run_serial(
            alloc,
            words,
            &mut objects.shelf,
            &mut fetchers,
            &mut objects.keeper,
            &mut objects.exporter,
            &mut objects.out,
            &mut steps,
        ),
    };
    Ok(Run {
        status: status.0,
        objects,
        mirrors: fetchers.len(),
    })
}

fn objects_of(
    alloc: Global,
    case: &Case,
    turn: Turn,
    kept: Option<Bytes>,
) -> Result<Objects, CaseFault> {
    Ok(Objects {
        shelf: MemShelf::new(files(alloc, case)?, failing(alloc, case, turn, "shelf")?),
        keeper: MemKeeper::new(kept, failing(alloc, case, turn, "keeper")?),
        exporter: MemExporter::new(alloc, failing(alloc, case, turn, "exporter")?),
        out: sink_of(alloc, case, turn)?,
    })
}

fn sink_of(alloc: Global, case: &Case, turn: Turn) -> Result<MemSink, CaseFault> {
    let failing = failing(alloc, case, turn, "sink")?;
    let (room, most) = match turn {
        Turn::Before => (ROOM, None),
        Turn::Own => (case.number("room")?.unwrap_or(ROOM), case.number("most")?),
    };
    Ok(MemSink::new(alloc, room, most, failing)?)
}

impl Run {
    /// What came at a section, and `None` where a run has no such section.
    pub fn section(&self, alloc: Global, due: &Entry) -> Result<Option<Vec<u8>>, NoMemory> {
        let done = self.objects.exporter.done();
        let held = self.objects.keeper.held();
        let text = match due.name.as_str() {
            "status" => format!(in alloc; "{}", self.status)?,
            "out" => return Ok(Some(Vec::from_slice(alloc, self.objects.out.taken())?)),
            "operations" => format!(in alloc; "{}", done.len())?,
            "mirrors" => format!(in alloc; "{}", self.mirrors)?,
            "done" => done_lines(alloc, done)?,
            "list" => return Ok(Some(list(alloc, done, due.argument.as_str())?)),
            "kept" => return Ok(Some(Vec::from_slice(alloc, held.unwrap_or(b"none"))?)),
            "entries" => entry_lines(alloc, held)?,
            _ => return Ok(None),
        };
        Ok(Some(text.into_bytes()))
    }
}

/// The key and the size of each entry of the store that is kept.
fn entry_lines(alloc: Global, held: Option<&[u8]>) -> Result<String, NoMemory> {
    let Some(bytes) = held else {
        return String::from_str(alloc, "none");
    };
    match read_store(alloc, bytes) {
        Ok(store) => stored_lines(alloc, store.entries.as_slice()),
        Err(StoreRefusal::NoMemory) => Err(AllocError),
        Err(_) => String::from_str(alloc, "none"),
    }
}

/// A line for each operation.
fn done_lines(alloc: Global, done: &[Op]) -> Result<String, NoMemory> {
    let mut lines = String::new(alloc);
    for op in done {
        lines.push_str(op_line(alloc, op)?.as_str())?;
        lines.push('\n')?;
    }
    Ok(lines)
}

/// The list with which the export into a folder ended.
fn list(alloc: Global, done: &[Op], folder: &str) -> Result<Vec<u8>, NoMemory> {
    for op in done {
        if let Op::Finish {
            folder: finished,
            list,
        } = op
        {
            if finished.as_str() == folder {
                return Vec::from_slice(alloc, list.as_slice());
            }
        }
    }
    Vec::from_slice(alloc, b"none")
}

/// The words of the template, or in their place the case's own.
pub fn words(alloc: Global, case: &Case) -> Result<Vec<String>, NoMemory> {
    let mut words = Vec::new(alloc);
    for entry in case.template.iter().chain(case.own.iter()) {
        add_words(alloc, entry, &mut words)?;
    }
    Ok(words)
}

fn add_words(alloc: Global, entry: &Entry, words: &mut Vec<String>) -> Result<(), NoMemory> {
    match entry.word.as_str() {
        "word" => words.push(entry.value.clone()?)?,
        "words" if !entry.value.is_empty() => add_split(alloc, entry.value.as_str(), words)?,
        _ => {}
    }
    Ok(())
}

fn add_split(alloc: Global, text: &str, words: &mut Vec<String>) -> Result<(), NoMemory> {
    for word in text.split(' ') {
        words.push(String::from_str(alloc, word)?)?;
    }
    Ok(())
}

/// The files of the shelf, whose names differ.
fn files(alloc: Global, case: &Case) -> Result<Vec<(Text, Bytes)>, CaseFault>
    ensures { IfOk result (λ files. AreFiles files.items) }
{
    let mut files = Vec::new(alloc);
    for entry in case.template.iter().chain(case.own.iter()) {
        if entry.word.as_str() == "file" {
            add_file(alloc, case, entry, &mut files)?;
        }
    }
    Ok(files)
}

fn add_file(
    alloc: Global,
    case: &Case,
    entry: &Entry,
    files: &mut Vec<(Text, Bytes)>,
) -> Result<(), CaseFault>
    requires { AreFiles files.old.items }
    ensures { OnOk result (AreFiles files.new.items) }
{
    let name = entry.name.as_str();
    if find_named(files, name).is_some() {
        return Err(Mistake::GivenTwice.at(entry.line));
    }
    let name = Text::new(alloc, name)?;
    let bytes = Bytes::new(bytes_of(alloc, case, entry)?);
    files.push((name, bytes))?;
    Ok(())
}

/// The numbers of the calls of an object that fail.
pub fn failing(
    alloc: Global,
    case: &Case,
    turn: Turn,
    object: &str,
) -> Result<Vec<u64>, CaseFault> {
    let mut numbers = Vec::new(alloc);
    let Some(entry) = case.find("fail", object) else {
        return Ok(numbers);
    };
    if turn == Turn::Before {
        return Ok(numbers);
    }
    for word in entry.value.split_whitespace() {
        match word.parse::<u64>() {
            Ok(number) => numbers.push(number)?,
            Err(_) => return Err(Mistake::NoNumber.at(entry.line)),
        }
    }
    Ok(numbers)
}

/// Refuses a line on calls that fail of an object that a run does not have.
fn check_objects(case: &Case) -> Result<(), CaseFault> {
    for entry in case.template.iter().chain(case.own.iter()) {
        if entry.word.as_str() == "fail" && !is_object(case, entry.name.as_str()) {
            return Err(Mistake::UnknownObject.at(entry.line));
        }
    }
    Ok(())
}

fn is_object(case: &Case, name: &str) -> bool {
    matches!(name, "shelf" | "keeper" | "exporter" | "sink") || is_mirror(case, name)
}
