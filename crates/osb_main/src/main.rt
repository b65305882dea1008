//! The command: it reads manifests from files, takes items from folders, keeps trees in a file, exports trees into a
//! folder, and writes its answer to standard output.
#![tactic(auto)]

ghost use Rattle.std.specs.Prelude.{◌≡◌, ◌<◌};

use osb_base::{Exporter, Fetcher, Keeper, NoMemory, Steps, SureExporter, SureKeeper};
use osb_host::{FileKeeper, FileShelf, FolderExporter, FolderMirror, Output};
use osb_top::{Status, inspect, run_serial};
use osb_words::{Settings, WordsFault, settings};
use std::io::ErrorKind;
use std::marker::Brand;
use std::process::ExitCode;
use std::rt::Env;
use std::sync::ledger::{Blank, Ledger};
use std::{env, io};

/// The words after the program's name.
fn words<R: Env + AllocGlobal>(rt: &R) -> io::Result<Vec<String>> {
    let mut args = env::args(rt)?;
    args.next();
    Ok(args.collect(rt.alloc())?)
}

fn main(rt: HostRuntime) -> ExitCode {
    let words = match words(&rt) {
        Ok(words) => words,
        Err(error) if error.kind() == ErrorKind::OutOfMemory => return ExitCode::from(7),
        // Words that can't be read are no request.
        Err(_) => Vec::new(rt.alloc()),
    };
    let status = match words.first() {
        Some(word) if word.as_str() == "inspect" => inspect_files(rt, &words),
        _ => run_words(rt, &words),
    };
    ExitCode::from(status.0)
}

fn inspect_files(rt: HostRuntime, words: &[String]) -> Status {
    let mut shelf = FileShelf::new(rt);
    let mut out = Output::new(rt);
    inspect(rt.alloc(), words, &mut shelf, &mut out)
}

/// A run over the files and folders that the words name. For want of memory before it nothing is called.
fn run_words(rt: HostRuntime, words: &[String]) -> Status {
    match settings(rt.alloc(), words) {
        Ok(settings) => run_settings(rt, words, &settings).unwrap_or(Status(7)),
        Err(WordsFault::Refused) => run_nothing(rt, words),
        Err(WordsFault::NoMemory) => Status(7),
    }
}

fn run_settings(
    rt: HostRuntime,
    words: &[String],
    settings: &Settings,
) -> Result<Status, NoMemory> {
    let alloc = rt.alloc();
    let mut mirrors: Vec<Box<dyn Fetcher>> = Vec::new(alloc);
    for folder in settings.mirrors.as_slice() {
        mirrors.push(Box::new(alloc, FolderMirror::new(rt, folder.clone()?))?)?;
    }
    let mut exporter = FolderExporter::new(rt, settings.output.as_str());
    match &settings.store {
        Some(store) => {
            let mut keeper = FileKeeper::new(rt, store.as_str());
            Ok(run(rt, words, &mut mirrors, &mut keeper, &mut exporter))
        }
        None => {
            let mut keeper = SureKeeper::new(None);
            Ok(run(rt, words, &mut mirrors, &mut keeper, &mut exporter))
        }
    }
}

/// A run of refused words, over a store and a folder in memory.
fn run_nothing(rt: HostRuntime, words: &[String]) -> Status {
    let alloc = rt.alloc();
    let mut keeper = SureKeeper::new(None);
    let mut exporter = SureExporter::new(alloc);
    run(rt, words, &mut Vec::new(alloc), &mut keeper, &mut exporter)
}

/// A run whose stages are counted from 0.
fn run<K: Keeper, E: Exporter>(
    rt: HostRuntime,
    words: &[String],
    mirrors: &mut Vec<Box<dyn Fetcher>>,
    keeper: &mut K,
    exporter: &mut E,
) -> Status {
    run_counted::<Brand, K, E>(rt, words, mirrors, keeper, exporter, Blank::new(1))
}

fn run_counted<L: Ledger, K: Keeper, E: Exporter>(
    rt: HostRuntime,
    words: &[String],
    mirrors: &mut Vec<Box<dyn Fetcher>>,
    keeper: &mut K,
    exporter: &mut E,
    blank: Blank,
) -> Status
    requires name { blank.name ≡ L.name }
    requires parts { blank.parts ≡ L.parts }
    requires some { 0 < blank.parts }
{
    let alloc = rt.alloc();
    let mut shelf = FileShelf::new(rt);
    let mut out = Output::new(rt);
    let mut steps = Steps::<L>::new(blank);
    run_serial(
        alloc, words, &mut shelf, mirrors, keeper, exporter, &mut out, &mut steps,
    )
}
