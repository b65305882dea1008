//! Two seats at a board of two tasks, the second of which waits for the first.
ghost use Rattle.std.specs.Prelude.{◌≡◌, ◌+◌, ◌%◌, ◌^◌, true, false, refl};

use crate::{Played, Turnstile};
use osb_base::{NoMemory, WorkerNo};
use std::alloc::Global;
use std::test::Fail;

#[derive(Clone, Copy)]
enum Progress {
    Waiting,
    FirstRuns,
    FirstDone,
    SecondRuns,
}

/// How far the tasks are, and how many turns it took.
#[derive(Clone, Copy)]
struct Board {
    progress: Progress,
    turns: u64,
}

#[derive(Clone, Copy)]
enum Action {
    Claim,
    Done,
}

#[derive(Clone, Copy, Debug, PartialEq, Eq)]
enum Reply {
    Task(u8),
    Over,
    Noted,
}

impl Played for Board {
    type Action = Action;

    type Reply = Reply;

    type Part = ();

    ghost use Rattle.osb_turn.specs.declared.tests.tasks.Progress.TheVariants.{Waiting, FirstRuns, FirstDone, SecondRuns};
    ghost use Rattle.osb_turn.specs.declared.tests.tasks.Action.TheVariants.{Claim, Done};
    ghost use Rattle.osb_turn.specs.declared.tests.tasks.Reply.TheVariants.{Task, Over, Noted};

    ghost gives = { λ s worker action. elim action [ Claim ↦ elim s.progress [ Waiting ↦ Task 0 | FirstRuns ↦ Over | FirstDone ↦ Task 1 | SecondRuns ↦ Over ] | Done ↦ Noted ] };

    ghost after = { λ s worker action. record { turns = (s.turns + 1) % 2 ^ 64; progress = elim action [ Claim ↦ elim s.progress [ Waiting ↦ FirstRuns | FirstRuns ↦ FirstRuns | FirstDone ↦ SecondRuns | SecondRuns ↦ SecondRuns ] | Done ↦ FirstDone ] } };

    ghost is_ready = { λ s worker action. elim action [ Claim ↦ elim s.progress [ Waiting ↦ true | FirstRuns ↦ false | FirstDone ↦ true | SecondRuns ↦ true ] | Done ↦ true ] };

    ghost refusable = { λ action. false };

    ghost valid = { λ s. Unit {0} };

    ghost part = { λ s worker. tt };

    ghost allows = { λ s worker action. Unit {0} };

    fn ready(&self, _worker: WorkerNo, action: &Action) -> bool {
        match (action, self.progress) {
            (Action::Claim, Progress::FirstRuns) => false,
            _ => true,
        }
    }

    fn play(
        &mut self,
        _alloc: Global,
        _worker: WorkerNo,
        action: Action,
    ) -> Result<Reply, NoMemory> {
        self.turns = self.turns.wrapping_add(1);
        let (progress, reply) = match (action, self.progress) {
            (Action::Claim, Progress::Waiting) => (Progress::FirstRuns, Reply::Task(0)),
            (Action::Claim, Progress::FirstDone) => (Progress::SecondRuns, Reply::Task(1)),
            (Action::Claim, progress) => (progress, Reply::Over),
            (Action::Done, _) => (Progress::FirstDone, Reply::Noted),
        };
        self.progress = progress;
        Ok(reply)
    }

    ghost by_part = { λ s t worker action v w same allowed. tt };

    ghost valid_stays = { λ s worker action v allowed. tt };

    ghost part_stays = { λ s worker other action v allowed differs. refl };
}

#[test]
fn the_second_task_waits_for_the_first(rt: HostRuntime) -> Result<(), Fail> {
    let start = Board {
        progress: Progress::Waiting,
        turns: 0,
    };
    let (turnstile, mut seats) = Turnstile::open(rt.alloc(), start, 2)?;
    let Some(mut second) = seats.pop() else {
        unreachable!()
    };
    let Some(mut first) = seats.pop() else {
        unreachable!()
    };
    let alloc = rt.alloc();
    let claimed = turnstile.ask(&rt, alloc, &mut first, Action::Claim)?;
    assert_eq!(rt; claimed, Some(Reply::Task(0)));
    let claimed = turnstile.ask(&rt, alloc, &mut second, Action::Claim)?;
    assert_eq!(rt; claimed, None);
    let noted = turnstile.act(&rt, alloc, &mut first, Action::Done)?;
    assert_eq!(rt; noted, Reply::Noted);
    let claimed = turnstile.ask(&rt, alloc, &mut second, Action::Claim)?;
    assert_eq!(rt; claimed, Some(Reply::Task(1)));
    seats.push(first)?;
    seats.push(second)?;
    let board = turnstile.close(seats).ok().ok_or("closed")?;
    assert_eq!(rt; board.turns, 3);
    Ok(())
}
