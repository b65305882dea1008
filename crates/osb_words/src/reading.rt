ghost use Rattle.std.specs.Prelude.{◌≡◌, ◌⊎◌, None, Ok, Err, Some, map, string_bytes, true, IfOk};
ghost use Rattle.clap.specs.Words.{takes, matches_of, found_of, rows_of};
ghost use Rattle.osb_words.specs.Commands.{build_app};
ghost use Rattle.osb_words.specs.Readings.{Reads};
ghost use Rattle.osb_words.specs.Requests.{request_of, begins_build, settings_of, IsTaken, AreRefused};

use crate::commands::command;
use crate::{Settings, values};
use clap::ArgMatches;
use clap::error::ErrorKind;
use std::alloc::{AllocError, Global};
use thiserror::Error;

/// Why words are no settings.
#[derive(Clone, Copy, Debug, PartialEq, Eq, Error)]
pub enum WordsFault {
    #[error("words refused")]
    Refused,
    #[error("out of memory")]
    NoMemory,
}

impl From<AllocError> for WordsFault {
    ghost use Rattle.std.specs.Prelude.{◌≡◌};
    ghost use Rattle.osb_words.specs.declared.reading.WordsFault.TheVariants.{NoMemory};

    ghost from_gives = { λ _ fault. fault ≡ NoMemory };

    fn from(_error: AllocError) -> Self {
        WordsFault::NoMemory
    }
}

impl From<clap::Error> for WordsFault {
    ghost use Rattle.std.specs.Prelude.{◌≡◌};
    ghost use Rattle.clap.specs.Words.{kind_of};
    ghost use Rattle.osb_words.specs.Readings.{fault_by};

    ghost from_gives = { λ error fault. fault ≡ fault_by (kind_of error) };

    fn from(error: clap::Error) -> Self {
        match error.kind() {
            ErrorKind::OutOfMemory => WordsFault::NoMemory,
            _ => WordsFault::Refused,
        }
    }
}

/// The settings that the words ask for: `build`, options and manifests.
pub fn settings(alloc: Global, words: &[String]) -> Result<Settings, WordsFault>
    ensures request { IfOk result (λ settings. request_of (map string_bytes words.now) ≡ Some settings) }
    ensures taken { IfOk result (λ settings. IsTaken (map string_bytes words.now)) }
    ensures refused { result ≡ Err WordsFault.Refused → AreRefused (map string_bytes words.now) }
    ensures refuses { AreRefused (map string_bytes words.now)
        → (result ≡ Err WordsFault.Refused) ⊎ (result ≡ Err WordsFault.NoMemory) }
    ensures takes { takes build_app (map string_bytes words.now) ≡ true → result ≡ Err WordsFault.Refused
        → request_of (map string_bytes words.now) ≡ None }
{
    if !begins_build(words) {
        return Err(WordsFault::Refused);
    }
    let matches = matches_of(alloc, words)?;
    settings_of(alloc, &matches)
}

fn begins_build(words: &[String]) -> bool
    ensures { result ≡ begins_build (map string_bytes words.now) }
{
    match words {
        [word, ..] => word.as_str() == "build",
        [] => false,
    }
}

/// What clap finds in the words.
fn matches_of<'a>(alloc: Global, words: &'a [String]) -> Result<ArgMatches<'a>, WordsFault>
    ensures rows { IfOk result (λ matches. rows_of (found_of matches)
        ≡ matches_of build_app (map string_bytes words.entry.now)) }
    ensures taken { IfOk result (λ matches. IsTaken (map string_bytes words.entry.now)) }
    ensures faulty { result ≡ Err WordsFault.Refused → IsTaken (map string_bytes words.entry.now) → ⊥ }
    ensures takes { takes build_app (map string_bytes words.entry.now) ≡ true → result ≡ Err WordsFault.Refused → ⊥ }
{
    Ok(command(alloc)?.try_get_matches_from(words)?)
}

fn settings_of(alloc: Global, matches: &ArgMatches) -> Result<Settings, WordsFault>
    ensures { Reads (settings_of (rows_of (found_of matches.now))) result }
{
    Ok(Settings {
        store: values::store(alloc, matches)?,
        output: values::output(alloc, matches)?,
        exports: values::exports(alloc, matches)?,
        checkpoints: values::checkpoints(alloc, matches)?,
        limit: values::limit(matches)?,
        workers: values::workers(matches)?,
        mirrors: values::mirrors(alloc, matches)?,
        manifests: values::manifests(alloc, matches)?,
        log: values::is_flagged(matches),
    })
}
