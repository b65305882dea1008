ghost use Rattle.std.specs.Prelude.{◌≡◌, ◌<◌};
ghost use Rattle.osb_recipe.specs.Plans.{IsSound};

use crate::boards::block_entry;
use crate::cases::Case;
use crate::entries::Entry;
use crate::mistakes::{CaseFault, Mistake};
use crate::plans::make_plan;
use crate::stages::fault_words;
use osb_base::{NoMemory, Share, Steps};
use osb_board::Claim;
use osb_cache::{Look, Reserve};
use osb_job::{Action, Job, Reply};
use osb_recipe::{Outcome, Plan};
use osb_tree::{Chunk, Key, Shared, TaskNo, WorkerNo};
use std::alloc::Global;
use std::fmt::Write;
use std::marker::Brand;
use std::sync::ledger::{Blank, Ledger};

/// What a job wants at first, and after each line of a script, a line each.
#[derive(Drop)]
pub struct Wanted {
    lines: String,
}

/// Runs a case's script of replies to a job, over the plan of the case's builds.
pub fn run_script(alloc: Global, case: &Case) -> Result<Wanted, CaseFault> {
    let plan = make_plan(alloc, case)?;
    let script = block_entry(case, "script")?;
    let lines = lines_wanted::<Brand>(alloc, &plan, script, Blank::new(1))?;
    Ok(Wanted { lines })
}

impl Wanted {
    /// What came at a section, and `None` where a script has no such section.
    pub fn section(&self, alloc: Global, due: &Entry) -> Result<Option<Vec<u8>>, NoMemory> {
        match due.name.as_str() {
            "actions" => Ok(Some(Vec::from_slice(alloc, self.lines.as_bytes())?)),
            _ => Ok(None),
        }
    }
}

fn lines_wanted<L: Ledger>(
    alloc: Global,
    plan: &Plan,
    script: &Entry,
    blank: Blank,
) -> Result<String, CaseFault>
    requires name { blank.name ≡ L.name }
    requires parts { blank.parts ≡ L.parts }
    requires some { 0 < blank.parts }
    requires sound { IsSound plan.now }
{
    let mut player = Player::new(alloc, Steps::<L>::new(blank));
    player.lines(alloc, plan, script)
}

/// A job with its steps, what it has asked, and what it has handed out so far.
#[derive(Drop)]
struct Player<L: Ledger> {
    job: Job,
    steps: Steps<L>,
    asked: Option<Action>,
    chunks: Vec<(Key, Shared<Chunk>)>,
    outcomes: Vec<(TaskNo, Outcome)>,
}

impl<L: Ledger> Player<L> {
    fn new(alloc: Global, steps: Steps<L>) -> Self {
        Player {
            job: Job::new(WorkerNo(0)),
            steps,
            asked: None,
            chunks: Vec::new(alloc),
            outcomes: Vec::new(alloc),
        }
    }

    /// What the job wants at first, and after each line of a script.
    fn lines(&mut self, alloc: Global, plan: &Plan, script: &Entry) -> Result<String, CaseFault>
        requires { IsSound plan.now }
    {
        let mut lines = self.line(alloc, script.line)?;
        for (place, text) in script.block.iter().enumerate() {
            let next = self.line_after(alloc, plan, text.as_str(), script.block_line(place))?;
            lines.push_str(next.as_str())?;
        }
        Ok(lines)
    }

    fn line_after(
        &mut self,
        alloc: Global,
        plan: &Plan,
        text: &str,
        line: usize,
    ) -> Result<String, CaseFault>
        requires { IsSound plan.now }
    {
        self.play(alloc, plan, text, line)?;
        self.line(alloc, line)
    }

    /// Asks the job, and gives what it wants.
    fn line(&mut self, alloc: Global, line: usize) -> Result<String, CaseFault> {
        if !self.job.can_want() {
            return Err(Mistake::NotAllowed.at(line));
        }
        self.asked = self.job.want();
        match &self.asked {
            Some(action) => action_line(alloc, action),
            None => Ok(String::from_str(alloc, "none\n")?),
        }
    }

    /// Does what a line of the script says: a reply, or that memory is refused.
    fn play(&mut self, alloc: Global, plan: &Plan, text: &str, line: usize) -> Result<(), CaseFault>
        requires { IsSound plan.now }
    {
        match text {
            "new" => self.job = Job::new(WorkerNo(0)),
            "refuse" => self.job.refuse(),
            _ => match text.strip_suffix(" refused") {
                Some(reply) => {
                    self.reply(alloc, plan, reply, line)?;
                    self.job.refuse();
                }
                None => self.reply(alloc, plan, text, line)?,
            },
        }
        Ok(())
    }

    fn reply(
        &mut self,
        alloc: Global,
        plan: &Plan,
        text: &str,
        line: usize,
    ) -> Result<(), CaseFault>
        requires { IsSound plan.now }
    {
        let words: Vec<&str> = text.split(' ').collect(alloc)?;
        let Some(action) = self.asked.take() else {
            return Err(Mistake::NotAllowed.at(line));
        };
        let Some(reply) = self.reply_to(plan, action, &words)? else {
            return Err(Mistake::NotAnAction.at(line));
        };
        if !self.job.is_of(plan) || !self.job.fits(alloc, plan, &reply)? {
            return Err(Mistake::NotAllowed.at(line));
        }
        self.job.take(alloc, plan, reply, &mut self.steps);
        Ok(())
    }

    /// The reply to an action that some words are.
    fn reply_to(
        &mut self,
        plan: &Plan,
        action: Action,
        words: &[&str],
    ) -> Result<Option<Reply>, NoMemory> {
        let reply = match action {
            Action::Claim => claim_of(words).map(Reply::Claimed),
            Action::Fetch(dep) => self.outcome_of(dep, words)?.map(Reply::Fetched),
            Action::Look(task) => self.look_of(plan, task, words).map(Reply::Looked),
            Action::Read(key, place) => self.chunk_of(key, place, words)?.map(Reply::Chunk),
            Action::Reserve(..) => reserve_of(words).map(Reply::Reserved),
            Action::Put(key, chunk) => {
                self.chunks.push((key, chunk))?;
                plain_of(words)
            }
            Action::Done(task, outcome) => {
                self.outcomes.push((task, outcome))?;
                plain_of(words)
            }
            Action::Unpin(_) | Action::Commit(_) | Action::Drop(_) => plain_of(words),
        };
        Ok(reply)
    }

    /// The outcome that the job has ended a task with, or another.
    fn outcome_of(&self, task: TaskNo, words: &[&str]) -> Result<Option<Outcome>, NoMemory> {
        match words {
            ["fetched"] => match self.outcomes.iter().find(|ended| ended.0 == task) {
                Some((_, outcome)) => Ok(Some(outcome.share()?)),
                None => Ok(None),
            },
            ["blocked"] => Ok(Some(Outcome::Blocked)),
            ["no", "memory"] => Ok(Some(Outcome::NoMemory)),
            _ => Ok(None),
        }
    }

    /// A hit of the marked key at a place, with the chunks that were put of it, or a miss.
    fn look_of(&self, plan: &Plan, task: TaskNo, words: &[&str]) -> Option<Look> {
        match words {
            ["hit", place] => {
                let place = place.parse::<usize>().ok()?;
                let task = plan.tasks.as_slice().get(task.0 as usize)?;
                let key = *task.marked.as_slice().get(place)?;
                let chunks = self.chunks.iter().filter(|put| put.0 == key).count();
                Some(Look::Hit { place, key, chunks })
            }
            ["miss"] => Some(Look::Miss),
            _ => None,
        }
    }

    /// The chunk that was put at a place of a key.
    fn chunk_of(
        &self,
        key: Key,
        place: usize,
        words: &[&str],
    ) -> Result<Option<Shared<Chunk>>, NoMemory> {
        let mut put = self.chunks.iter().filter(|put| put.0 == key).skip(place);
        match (words, put.next()) {
            (["chunk"], Some((_, chunk))) => Ok(Some(chunk.share()?)),
            _ => Ok(None),
        }
    }
}

fn claim_of(words: &[&str]) -> Option<Claim> {
    match words {
        ["task", number] => Some(Claim::Task(TaskNo(number.parse::<u64>().ok()?))),
        ["idle"] => Some(Claim::Idle),
        ["over"] => Some(Claim::Over),
        _ => None,
    }
}

fn reserve_of(words: &[&str]) -> Option<Reserve> {
    match words {
        ["room"] => Some(Reserve::Room { evicted: 0 }),
        ["already"] => Some(Reserve::Already),
        ["too", "large"] => Some(Reserve::TooLarge),
        ["full"] => Some(Reserve::Full),
        _ => None,
    }
}

fn plain_of(words: &[&str]) -> Option<Reply> {
    match words {
        ["ok"] => Some(Reply::Plain),
        _ => None,
    }
}

fn action_line(alloc: Global, action: &Action) -> Result<String, CaseFault> {
    let line = match action {
        Action::Claim => String::from_str(alloc, "claim\n")?,
        Action::Fetch(dep) => format!(in alloc; "fetch {}\n", dep.0)?,
        Action::Look(task) => format!(in alloc; "look {}\n", task.0)?,
        Action::Read(key, place) => format!(in alloc; "read {} {place}\n", key.0)?,
        Action::Unpin(key) => format!(in alloc; "unpin {}\n", key.0)?,
        Action::Reserve(key, size, chunks) => {
            format!(in alloc; "reserve {} {size} {chunks}\n", key.0)?
        }
        Action::Put(key, chunk) => {
            let chunk = chunk.get();
            format!(in alloc; "put {} {} {}\n", key.0, chunk.len(), chunk.weight())?
        }
        Action::Commit(key) => format!(in alloc; "commit {}\n", key.0)?,
        Action::Drop(key) => format!(in alloc; "drop {}\n", key.0)?,
        Action::Done(task, outcome) => done_line(alloc, *task, outcome)?,
    };
    Ok(line)
}

fn done_line(alloc: Global, task: TaskNo, outcome: &Outcome) -> Result<String, CaseFault> {
    let mut line = format!(in alloc; "done {} ", task.0)?;
    write_outcome(alloc, &mut line, outcome)?;
    line.push('\n')?;
    Ok(line)
}

/// The size of a tree, the place and words of a fault, or `blocked` or `no memory`.
pub fn write_outcome(alloc: Global, out: &mut String, outcome: &Outcome) -> Result<(), CaseFault> {
    match outcome {
        Outcome::Tree(tree) => write!(out, "tree {}", tree.get().size())?,
        Outcome::Fault(stage, fault) => {
            let words = fault_words(alloc, fault)?;
            write!(out, "{stage} {}", words.as_str())?;
        }
        Outcome::Blocked => out.push_str("blocked")?,
        Outcome::NoMemory => out.push_str("no memory")?,
    }
    Ok(())
}
