ghost use Rattle.std.specs.Prelude.{◌<◌, All, IfOk, OnOk};
ghost use Rattle.osb_board.specs.Boards.{AreLower};

use crate::cases::Case;
use crate::entries::Entry;
use crate::mistakes::{CaseFault, Mistake};
use osb_base::{List, NoMemory, Share, TaskNo, Text, WorkerNo};
use osb_board::{Board, Claim};
use osb_tree::Shared;
use std::alloc::Global;

/// The highest number of a worker.
const LAST_WORKER: u32 = 63;

/// The outcome of a task: a word.
#[derive(Drop)]
struct Word {
    text: Shared<Text>,
}

impl Word {
    fn new(alloc: Global, text: &str) -> Result<Word, NoMemory> {
        Ok(Word {
            text: Shared::new(alloc, Text::new(alloc, text)?)?,
        })
    }

    fn as_str(&self) -> &str {
        self.text.get().as_str()
    }
}

impl Share for Word {
    fn share(&self) -> Result<Self, NoMemory> {
        Ok(Word {
            text: self.text.share()?,
        })
    }
}

/// What a board replied to the actions of a script, a line each.
#[derive(Drop)]
pub struct Replies {
    lines: String,
}

/// Makes the actions of a case's script on a board of the case's tasks.
pub fn run_script(alloc: Global, case: &Case) -> Result<Replies, CaseFault> {
    let tasks = tasks(alloc, block_entry(case, "tasks")?)?;
    let script = block_entry(case, "script")?;
    let (actions, takes_board) = actions(script);
    let mut board = Board::new(alloc, &tasks)?;
    let mut lines = String::new(alloc);
    for (place, action) in actions.iter().enumerate() {
        let line = script.block_line(place);
        let reply = reply(alloc, action.as_str(), line, &mut board)?;
        lines.push_str(reply.as_str())?;
        lines.push('\n')?;
    }
    if takes_board {
        lines.push_str(outcome_line(alloc, board)?.as_str())?;
        lines.push('\n')?;
    }
    Ok(Replies { lines })
}

impl Replies {
    /// What came at a section, and `None` where a script has no such section.
    pub fn section(&self, alloc: Global, due: &Entry) -> Result<Option<Vec<u8>>, NoMemory> {
        match due.name.as_str() {
            "replies" => Ok(Some(Vec::from_slice(alloc, self.lines.as_bytes())?)),
            _ => Ok(None),
        }
    }
}

/// The line with this word, which has a block alone.
pub fn block_entry<'a>(case: &'a Case, word: &str) -> Result<&'a Entry, CaseFault> {
    let entry = case.needed(word)?;
    if entry.value.is_empty() {
        Ok(entry)
    } else {
        Err(Mistake::ValueForBlock.at(entry.line))
    }
}

/// For each task those that it waits for.
fn tasks(alloc: Global, entry: &Entry) -> Result<Vec<List<TaskNo>>, CaseFault>
    ensures { IfOk result (λ tasks. AreLower tasks.items) }
{
    let mut tasks = Vec::new(alloc);
    for (place, text) in entry.block.iter().enumerate() {
        add_task(alloc, text.as_str(), entry.block_line(place), &mut tasks)?;
    }
    Ok(tasks)
}

fn add_task(
    alloc: Global,
    text: &str,
    line: usize,
    tasks: &mut Vec<List<TaskNo>>,
) -> Result<(), CaseFault>
    requires { AreLower tasks.old.items }
    ensures { OnOk result (AreLower tasks.new.items) }
{
    let deps = lower_tasks(alloc, text, tasks.len() as u64, line)?;
    tasks.push(deps)?;
    Ok(())
}

/// The numbers of a line of tasks, each lower than the task's own.
fn lower_tasks(alloc: Global, text: &str, task: u64, line: usize) -> Result<List<TaskNo>, CaseFault>
    ensures { IfOk result (λ deps. All (λ dep. dep.0 < task) deps) }
{
    let mut deps = Vec::new(alloc);
    if text == "-" {
        return Ok(List::new(deps));
    }
    for word in text.split(' ') {
        deps.push(lower_task(word, task, line)?)?;
    }
    Ok(List::new(deps))
}

fn lower_task(word: &str, task: u64, line: usize) -> Result<TaskNo, CaseFault>
    ensures { IfOk result (λ dep. dep.0 < task) }
{
    let dep = task_of(word, line)?;
    if dep.0 < task {
        Ok(dep)
    } else {
        Err(Mistake::NotLower.at(line))
    }
}

fn task_of(word: &str, line: usize) -> Result<TaskNo, CaseFault> {
    match word.parse::<u64>() {
        Ok(number) => Ok(TaskNo(number)),
        Err(_) => Err(Mistake::NoNumber.at(line)),
    }
}

pub fn worker_of(word: &str, line: usize) -> Result<WorkerNo, CaseFault> {
    match word.parse::<u32>() {
        Ok(number) if number <= LAST_WORKER => Ok(WorkerNo(number)),
        _ => Err(Mistake::NoWorker.at(line)),
    }
}

/// The actions of a script before the one that takes the board, and whether that stands at its end.
fn actions(script: &Entry) -> (&[String], bool) {
    match script.block.split_last() {
        Some((last, front)) if last.as_str() == "outcomes" => (front, true),
        _ => (&script.block, false),
    }
}

/// Makes one action, and gives the board's reply.
fn reply(
    alloc: Global,
    action: &str,
    line: usize,
    board: &mut Board<Word>,
) -> Result<String, CaseFault> {
    let words: Vec<&str> = action.split(' ').collect(alloc)?;
    let reply = match words.as_slice() {
        ["claim", worker] => claim(alloc, worker_of(worker, line)?, board)?,
        ["fetch", task] => fetch(alloc, task_of(task, line)?, board)?,
        ["done", worker, task, word] => {
            let worker = worker_of(worker, line)?;
            done(alloc, worker, task_of(task, line)?, word, board)?
        }
        ["idle"] => Some(String::from_str(alloc, if board.is_idle() { "yes" } else { "no" })?),
        _ => return Err(Mistake::NotAnAction.at(line)),
    };
    match reply {
        Some(reply) => Ok(reply),
        None => Err(Mistake::NotAllowed.at(line)),
    }
}

/// The reply to a claim, and `None` where the worker runs a task.
fn claim(
    alloc: Global,
    worker: WorkerNo,
    board: &mut Board<Word>,
) -> Result<Option<String>, NoMemory> {
    if !board.is_free(worker) {
        return Ok(None);
    }
    let reply = match board.claim(worker) {
        Claim::Task(task) => format!(in alloc; "task {}", task.0)?,
        Claim::Idle => String::from_str(alloc, "idle")?,
        Claim::Over => String::from_str(alloc, "over")?,
    };
    Ok(Some(reply))
}

/// The word of a task, and `None` where it is not done.
fn fetch(alloc: Global, task: TaskNo, board: &Board<Word>) -> Result<Option<String>, NoMemory> {
    if !board.is_done(task) {
        return Ok(None);
    }
    let word = board.fetch(task)?;
    Ok(Some(String::from_str(alloc, word.as_str())?))
}

/// The reply to the end of a task, and `None` where the worker does not run it.
fn done(
    alloc: Global,
    worker: WorkerNo,
    task: TaskNo,
    word: &str,
    board: &mut Board<Word>,
) -> Result<Option<String>, NoMemory> {
    if !board.runs(worker, task) {
        return Ok(None);
    }
    board.done(worker, task, Word::new(alloc, word)?);
    Ok(Some(String::from_str(alloc, "done")?))
}

/// The word of each task, and `-` for one that is not done.
fn outcome_line(alloc: Global, board: Board<Word>) -> Result<String, NoMemory> {
    let mut line = String::new(alloc);
    for (place, outcome) in board.into_outcomes(alloc)?.as_slice().iter().enumerate() {
        if place > 0 {
            line.push(' ')?;
        }
        match outcome {
            Some(word) => line.push_str(word.as_str())?,
            None => line.push('-')?,
        }
    }
    Ok(line)
}
