//! The settings that words ask for.
use crate::cases::Case;
use crate::mistakes::CaseFault;
use crate::runs::words;
use osb_base::{NoMemory, Text};
use osb_ident::Checkpoint;
use osb_words::{Settings, WordsFault, settings};
use std::alloc::{AllocError, Global};
use std::fmt::Write;

pub fn settings_answer(alloc: Global, case: &Case) -> Result<Text, CaseFault> {
    let words = words(alloc, case)?;
    match settings(alloc, &words) {
        Ok(settings) => {
            let lines = settings_lines(alloc, &settings)?;
            Ok(Text::new(alloc, lines.as_str())?)
        }
        Err(WordsFault::Refused) => Ok(Text::new(alloc, "words refused\n")?),
        Err(WordsFault::NoMemory) => Err(CaseFault::NoMemory(AllocError)),
    }
}

/// A line for each value that there is.
fn settings_lines(alloc: Global, settings: &Settings) -> Result<String, NoMemory> {
    let mut lines = String::new(alloc);
    if let Some(store) = &settings.store {
        write!(lines, "store {}\n", store.as_str())?;
    }
    write!(lines, "output {}\n", settings.output.as_str())?;
    write!(lines, "limit {}\n", settings.limit)?;
    write!(lines, "workers {}\n", settings.workers)?;
    write_each(&mut lines, "export", settings.exports.as_slice())?;
    write_checkpoints(&mut lines, settings.checkpoints.as_slice())?;
    write_each(&mut lines, "mirror", settings.mirrors.as_slice())?;
    if settings.log {
        lines.push_str("log\n")?;
    }
    write_each(&mut lines, "manifest", settings.manifests.as_slice())?;
    Ok(lines)
}

fn write_each(lines: &mut String, what: &str, texts: &[Text]) -> Result<(), NoMemory> {
    for text in texts {
        write!(lines, "{what} {}\n", text.as_str())?;
    }
    Ok(())
}

fn write_checkpoints(lines: &mut String, checkpoints: &[Checkpoint]) -> Result<(), NoMemory> {
    for checkpoint in checkpoints {
        let word = match checkpoint {
            Checkpoint::All => "*",
            Checkpoint::Word(word) => word.as_str(),
        };
        write!(lines, "checkpoint {word}\n")?;
    }
    Ok(())
}
