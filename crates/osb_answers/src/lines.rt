ghost use Rattle.std.specs.Prelude.{◌≡◌, ◌++◌, codes, IfOk, OnOk, string_bytes};
ghost use Rattle.osb_base.specs.Digests.{digest_text};
ghost use Rattle.osb_tree.specs.Paths.{path_text};
ghost use Rattle.osb_answers.specs.Lines.{numbered, option_words, refusal_words, fault_words, source_words, unbuilt_words, line_of, export_words, answer_lines, answers_text};

use crate::answers::{Answer, ExportAnswer, Exported};
use osb_base::{Digest, NoMemory};
use osb_manifest::Refusal;
use osb_pyjson::py_string;
use osb_ready::Unbuilt;
use osb_sources::SourceAnswer;
use osb_tree::{OptionFault, Path, StageFault};
use std::alloc::Global;
use std::fmt::Write;

/// The lines of builds, whose places among the manifests count from 1.
pub fn answers_text(alloc: Global, answers: &[Answer]) -> Result<String, NoMemory>
    ensures text { IfOk result (λ text. string_bytes text ≡ answers_text 1 answers.now) }
{
    let mut text = String::new(alloc);
    for (before, answer) in answers.iter().enumerate() {
        add_lines(alloc, before + 1, answer, &mut text)?;
    }
    Ok(text)
}

/// The line of a build that has no trees.
pub fn unbuilt_line(alloc: Global, place: usize, unbuilt: &Unbuilt) -> Result<String, NoMemory>
    ensures line { IfOk result (λ line. string_bytes line ≡ line_of place (unbuilt_words unbuilt.now)) }
{
    let words = unbuilt_words(alloc, unbuilt)?;
    format!(in alloc; "{place} {words}\n")
}

/// Adds the lines of a build: one for each export, or one that says why there are no trees.
fn add_lines(
    alloc: Global,
    place: usize,
    answer: &Answer,
    text: &mut String,
) -> Result<(), NoMemory>
    ensures lines { OnOk result (string_bytes text.new ≡ string_bytes text.old ++ answer_lines place answer.now) }
{
    match answer {
        Answer::Unbuilt(unbuilt) => {
            let words = unbuilt_words(alloc, unbuilt)?;
            write!(text, "{place} {}\n", words.as_str())
        }
        Answer::Exports(exports) => add_export_lines(alloc, place, exports.as_slice(), text),
    }
}

fn add_export_lines(
    alloc: Global,
    place: usize,
    exports: &[Exported],
    text: &mut String,
) -> Result<(), NoMemory>
    ensures { OnOk result (string_bytes text.new ≡ string_bytes text.old ++ answer_lines place (Answer.Exports exports.now)) }
{
    for exported in exports {
        let words = export_words(alloc, exported.export.name.as_str(), exported.answer)?;
        write!(text, "{place} {}\n", words.as_str())?;
    }
    Ok(())
}

fn export_words(alloc: Global, name: &str, answer: ExportAnswer) -> Result<String, NoMemory>
    ensures { IfOk result (λ words. string_bytes words ≡ export_words name.now answer) }
{
    match answer {
        ExportAnswer::Exported(size) => format!(in alloc; "{name} exported {size}"),
        ExportAnswer::Fault => format!(in alloc; "{name} export fault"),
        ExportAnswer::NoMemory => format!(in alloc; "{name} want of memory"),
    }
}

fn unbuilt_words(alloc: Global, unbuilt: &Unbuilt) -> Result<String, NoMemory>
    ensures { IfOk result (λ words. string_bytes words ≡ unbuilt_words unbuilt.now) }
{
    match unbuilt {
        Unbuilt::Absent => String::from_str(alloc, "absent"),
        Unbuilt::ReadFault => String::from_str(alloc, "read fault"),
        Unbuilt::Refused(refusal) => {
            let words = refusal_words(alloc, refusal)?;
            format!(in alloc; "refused {words}")
        }
        Unbuilt::NoSuchExport(name) => {
            let name = py_string(alloc, name.as_str())?;
            let name = name.as_str();
            format!(in alloc; "no such export {name}")
        }
        Unbuilt::Source(answer) => source_words(alloc, answer),
        Unbuilt::Failed {
            pipeline,
            stage,
            fault,
        } => {
            let pipeline = pipeline.as_str();
            let words = fault_words(alloc, fault)?;
            format!(in alloc; "failed {pipeline} {stage} {words}")
        }
        Unbuilt::NoMemory => String::from_str(alloc, "want of memory"),
    }
}

/// What is wrong with an item, and its digest.
fn source_words(alloc: Global, answer: &SourceAnswer) -> Result<String, NoMemory>
    ensures { IfOk result (λ words. string_bytes words ≡ source_words answer.now) }
{
    match answer {
        SourceAnswer::Missing(digest) => with_digest(alloc, "source missing", digest),
        SourceAnswer::Wrong(digest) => with_digest(alloc, "source wrong", digest),
        SourceAnswer::Fault(digest) => with_digest(alloc, "source fault", digest),
        SourceAnswer::BadBase64(digest) => with_digest(alloc, "bad base64", digest),
        SourceAnswer::ItemTooLarge(digest) => with_digest(alloc, "item too large", digest),
        SourceAnswer::NoMemory => String::from_str(alloc, "want of memory"),
    }
}

fn with_digest(alloc: Global, words: &str, digest: &Digest) -> Result<String, NoMemory>
    ensures { IfOk result (λ text. string_bytes text ≡ words.now ++ (codes " " ++ digest_text digest.now)) }
{
    let digest = digest.text(alloc)?;
    let digest = digest.as_str();
    format!(in alloc; "{words} {digest}")
}

/// The number of a stage's fault, and what it is about.
fn fault_words(alloc: Global, fault: &StageFault) -> Result<String, NoMemory>
    ensures { IfOk result (λ words. string_bytes words ≡ fault_words fault.now) }
{
    match fault {
        StageFault::Missing(path) => numbered_path(alloc, 1, path),
        StageFault::Exists(path) => numbered_path(alloc, 2, path),
        StageFault::NotADir(path) => numbered_path(alloc, 3, path),
        StageFault::NotAFile(path) => numbered_path(alloc, 4, path),
        StageFault::NoInput(name) => numbered_name(alloc, 5, name.as_str()),
        StageFault::NoAccount(name) => numbered_name(alloc, 6, name.as_str()),
        StageFault::AccountExists(name) => numbered_name(alloc, 7, name.as_str()),
        StageFault::NumberTaken(number) => format!(in alloc; "8 {number}"),
        StageFault::BadLine(path, line) => {
            let path = numbered_path(alloc, 9, path)?;
            format!(in alloc; "{path} {line}")
        }
        StageFault::ToolMissing(path) => numbered_path(alloc, 10, path),
        StageFault::Asked(number) => format!(in alloc; "11 {number}"),
        StageFault::TreeTooLarge => String::from_str(alloc, "12"),
        StageFault::NoMemory => String::from_str(alloc, "want of memory"),
    }
}

/// A fault's number, and the path it is about.
fn numbered_path(alloc: Global, number: u8, path: &Path) -> Result<String, NoMemory>
    ensures { IfOk result (λ words. string_bytes words ≡ numbered number (path_text path.now)) }
{
    numbered_name(alloc, number, path.text(alloc)?.as_str())
}

/// A fault's number, and the name it is about.
fn numbered_name(alloc: Global, number: u8, name: &str) -> Result<String, NoMemory>
    ensures { IfOk result (λ words. string_bytes words ≡ numbered number name.now) }
{
    let name = py_string(alloc, name)?;
    let name = name.as_str();
    format!(in alloc; "{number} {name}")
}

/// The number of a refusal, and its place; of a member its name too, and of options what is wrong with them.
fn refusal_words(alloc: Global, refusal: &Refusal) -> Result<String, NoMemory>
    ensures { IfOk result (λ words. string_bytes words ≡ refusal_words refusal.now) }
{
    match refusal {
        Refusal::TooLong(place) => numbered_name(alloc, 1, place.as_str()),
        Refusal::NotJson(place) => numbered_name(alloc, 2, place.as_str()),
        Refusal::NotObject(place) => numbered_name(alloc, 3, place.as_str()),
        Refusal::Version(place) => numbered_name(alloc, 4, place.as_str()),
        Refusal::TooMany(place) => numbered_name(alloc, 5, place.as_str()),
        Refusal::Member(place, name) => {
            let place = numbered_name(alloc, 6, place.as_str())?;
            let name = py_string(alloc, name.as_str())?;
            let name = name.as_str();
            format!(in alloc; "{place} {name}")
        }
        Refusal::BadNumber(place) => numbered_name(alloc, 7, place.as_str()),
        Refusal::DuplicatePipeline(place) => numbered_name(alloc, 8, place.as_str()),
        Refusal::UnknownReference(place) => numbered_name(alloc, 9, place.as_str()),
        Refusal::UnknownStage(place) => numbered_name(alloc, 10, place.as_str()),
        Refusal::UnknownInput(place) => numbered_name(alloc, 11, place.as_str()),
        Refusal::UnknownSource(place) => numbered_name(alloc, 12, place.as_str()),
        Refusal::BadChecksum(place) => numbered_name(alloc, 13, place.as_str()),
        Refusal::Encoding(place) => numbered_name(alloc, 14, place.as_str()),
        Refusal::Options(place, fault) => {
            let place = numbered_name(alloc, 15, place.as_str())?;
            let fault = option_words(alloc, fault)?;
            format!(in alloc; "{place} {fault}")
        }
        Refusal::NoMemory => String::from_str(alloc, "want of memory"),
    }
}

/// The number of an option's fault, and the member's name.
fn option_words(alloc: Global, fault: &OptionFault) -> Result<String, NoMemory>
    ensures { IfOk result (λ words. string_bytes words ≡ option_words fault.now) }
{
    match fault {
        OptionFault::Missing(name) => numbered_name(alloc, 1, name.as_str()),
        OptionFault::WrongKind(name) => numbered_name(alloc, 2, name.as_str()),
        OptionFault::OutOfRange(name) => numbered_name(alloc, 3, name.as_str()),
        OptionFault::BadPath(name) => numbered_name(alloc, 4, name.as_str()),
        OptionFault::UnknownMember(name) => numbered_name(alloc, 5, name.as_str()),
        OptionFault::NoMemory => String::from_str(alloc, "want of memory"),
    }
}
