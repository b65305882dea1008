use crate::cases::Case;
use crate::entries::Entry;
use crate::kinds::Kind;
use crate::marks::marks_answer;
use crate::mistakes::{CaseFault, Mistake};
use crate::parts::text_of;
use crate::settings::settings_answer;
use crate::{boards, caches, chunks, jobs, plans, puts, runs, schedules, stages, stores};
use osb_base::NoMemory;
use osb_pyjson::{PyFault, py_string, py_text};
use osb_recipe::Plan;
use osb_tree::{Path, PathFault, Text};
use serde_json::Value;
use std::alloc::{AllocError, Global};

/// What came of a case's call.
#[derive(Drop)]
pub enum Outcome {
    Run(runs::Run),
    Answer(Text),
    Puts(puts::AfterPuts),
    Stage(stages::StageRun),
    Board(boards::Replies),
    Chunks(chunks::Chunked),
    Cache(caches::Replies),
    Plan(Plan),
    Job(jobs::Wanted),
    Machine(schedules::Left),
    Store(stores::Given),
}

/// Makes the call of a case.
pub fn make_call(alloc: Global, case: &Case) -> Result<Outcome, CaseFault> {
    match case.kind {
        Kind::RunSerial | Kind::Inspect => Ok(Outcome::Run(runs::run_case(alloc, case)?)),
        Kind::Marks => Ok(Outcome::Answer(marks_answer(alloc, case)?)),
        Kind::Settings => Ok(Outcome::Answer(settings_answer(alloc, case)?)),
        Kind::Path => Ok(Outcome::Answer(path_answer(alloc, case)?)),
        Kind::Python => Ok(Outcome::Answer(python_answer(alloc, case)?)),
        Kind::PythonString => Ok(Outcome::Answer(python_string_answer(alloc, case)?)),
        Kind::Puts => Ok(Outcome::Puts(puts::make_puts(alloc, case)?)),
        Kind::Stage => Ok(Outcome::Stage(stages::run_stage(alloc, case)?)),
        Kind::Board => Ok(Outcome::Board(boards::run_script(alloc, case)?)),
        Kind::Chunks => Ok(Outcome::Chunks(chunks::make_chunks(alloc, case)?)),
        Kind::Cache => Ok(Outcome::Cache(caches::run_script(alloc, case)?)),
        Kind::Plan => Ok(Outcome::Plan(plans::make_plan(alloc, case)?)),
        Kind::Job => Ok(Outcome::Job(jobs::run_script(alloc, case)?)),
        Kind::Serial => Ok(Outcome::Machine(schedules::run_alone(alloc, case)?)),
        Kind::Schedule => Ok(Outcome::Machine(schedules::run_turns(alloc, case)?)),
        Kind::Store => Ok(Outcome::Store(stores::bytes_given(alloc, case)?)),
    }
}

impl Outcome {
    /// What came at the section that a line says what is due of.
    pub fn section(&self, alloc: Global, case: &Case, due: &Entry) -> Result<Vec<u8>, CaseFault> {
        let came = match self {
            Outcome::Run(run) => run.section(alloc, due)?,
            Outcome::Answer(answer) => answer_section(alloc, answer, due)?,
            Outcome::Puts(puts) => puts.section(alloc, case, due)?.map(String::into_bytes),
            Outcome::Stage(stage) => stage.section(alloc, due)?,
            Outcome::Board(replies) => replies.section(alloc, due)?,
            Outcome::Chunks(chunks) => chunks.section(alloc, due)?.map(String::into_bytes),
            Outcome::Cache(replies) => replies.section(alloc, due)?,
            Outcome::Plan(plan) => plans::section(alloc, plan, due)?.map(String::into_bytes),
            Outcome::Job(wanted) => wanted.section(alloc, due)?,
            Outcome::Machine(left) => left.section(alloc, due)?,
            Outcome::Store(given) => given.section(alloc, due)?,
        };
        match came {
            Some(bytes) => Ok(bytes),
            None => Err(Mistake::UnknownSection.at(due.line)),
        }
    }
}

fn answer_section(alloc: Global, answer: &Text, due: &Entry) -> Result<Option<Vec<u8>>, NoMemory> {
    match due.name.as_str() {
        "answer" => Ok(Some(Vec::from_slice(alloc, answer.as_str().as_bytes())?)),
        _ => Ok(None),
    }
}

fn path_answer(alloc: Global, case: &Case) -> Result<Text, CaseFault> {
    let text = text_of(alloc, case, case.needed("text")?)?;
    let fault = match Path::read(alloc, text.as_str()) {
        Ok(path) => return Ok(path.text(alloc)?),
        Err(PathFault::Empty) => "fault 1 Empty",
        Err(PathFault::NotAbsolute) => "fault 2 NotAbsolute",
        Err(PathFault::DotName) => "fault 3 DotName",
        Err(PathFault::NulByte) => "fault 4 NulByte",
        Err(PathFault::TooLong) => "fault 5 TooLong",
        Err(PathFault::NoMemory) => return Err(CaseFault::NoMemory(AllocError)),
    };
    Ok(Text::new(alloc, fault)?)
}

fn python_answer(alloc: Global, case: &Case) -> Result<Text, CaseFault> {
    let entry = case.needed("value")?;
    let text = text_of(alloc, case, entry)?;
    let Ok(value) = Value::from_str(alloc, text.as_str()) else {
        return Err(Mistake::NotJson.at(entry.line));
    };
    match py_text(alloc, &value) {
        Ok(text) => Ok(text),
        Err(PyFault::NotWhole) => Ok(Text::new(alloc, "fault 1 NotWhole")?),
        Err(PyFault::NoMemory) => Err(CaseFault::NoMemory(AllocError)),
    }
}

fn python_string_answer(alloc: Global, case: &Case) -> Result<Text, CaseFault> {
    let text = text_of(alloc, case, case.needed("text")?)?;
    Ok(py_string(alloc, text.as_str())?)
}
