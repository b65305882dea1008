//! Runs crews over the plans of manifests, and prints how their tasks end and what their gates saw.
//!
//! The words are those of runs, one behind the other with `--` between them. A run's first word is `open`, or `hold` where
//! its gate holds task 0 until task 1 has passed; behind it stand the words of a build. Each plan is run from nothing, and
//! again over the entries that are left.
#![tactic(auto)]

mod gates;
mod plans;
mod runs;

use anyhow::{Result, bail};
use osb_base::Bytes;
use osb_words::{Settings, settings};
use plans::read_manifests;
use runs::run_twice;
use std::{env, io};

/// What a run is asked for.
#[derive(Drop)]
struct Asked {
    holds: bool,
    settings: Settings,
    manifests: Vec<Bytes>,
}

fn main(rt: HostRuntime) -> Result<()> {
    for words in &runs_asked(&rt)? {
        let Asked {
            holds,
            settings,
            manifests,
        } = read_run(&rt, words)?;
        let text = run_twice(&rt, rt.alloc(), &settings, manifests, holds)?;
        print!(rt; "{}", text.as_str())?;
    }
    Ok(())
}

/// The words of each run.
fn runs_asked(rt: &HostRuntime) -> io::Result<Vec<Vec<String>>> {
    let mut words = env::args(rt)?;
    words.next();
    let mut runs = Vec::new(rt.alloc());
    let mut run = Vec::new(rt.alloc());
    for word in words {
        if word.as_str() == "--" {
            runs.push(run)?;
            run = Vec::new(rt.alloc());
        } else {
            run.push(word)?;
        }
    }
    runs.push(run)?;
    Ok(runs)
}

/// One run, by its words.
fn read_run(rt: &HostRuntime, words: &[String]) -> Result<Asked> {
    let Some((gate, rest)) = words.split_first() else {
        bail!("no words");
    };
    let Ok(settings) = settings(rt.alloc(), rest) else {
        bail!("words refused");
    };
    let manifests = read_manifests(rt, &settings)?;
    Ok(Asked {
        holds: gate.as_str() == "hold",
        settings,
        manifests,
    })
}
