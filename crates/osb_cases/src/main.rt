//! Runs the cases of the files that its words name, and prints where what came differs from what is due.
#![tactic(auto)]

mod boards;
mod caches;
mod cases;
mod chunks;
mod differences;
mod entries;
mod jobs;
mod kinds;
mod marks;
mod mirrors;
mod mistakes;
mod nodes;
mod outcomes;
mod parts;
mod plain;
mod plans;
mod puts;
mod random;
mod runs;
mod schedules;
mod settings;
mod stages;
mod stores;

use anyhow::{Context, Result, bail};
use differences::{Count, Report, run_cases};
use std::rt::Env;
use std::{env, fs, io};

/// The words after the program's name.
fn file_names<R: Env + AllocGlobal>(rt: &R) -> io::Result<Vec<String>> {
    let mut args = env::args(rt)?;
    args.next();
    Ok(args.collect(rt.alloc())?)
}

fn run_file(rt: &HostRuntime, name: &str) -> Result<Report> {
    let text = fs::read_to_string(rt, name).context(format_args!("reading {name}"))?;
    match run_cases(rt.alloc(), name, text.as_str()) {
        Ok(report) => Ok(report),
        Err(fault) => bail!("{name}:{fault}"),
    }
}

fn main(rt: HostRuntime) -> Result<()> {
    let mut all = Count::default();
    for name in &file_names(&rt)? {
        let report = run_file(&rt, name.as_str())?;
        print!(rt; "{}", report.text.as_str())?;
        all.add(report.count);
    }
    eprintln!(rt; "{all}")?;
    Ok(())
}
