ghost use Rattle.std.specs.Prelude.{◌≡◌, ◌<◌, ◌≤◌, length, true, false, All, [], MatchOption, MatchResult, IfOk, IfErr, IsOk};
ghost use Rattle.osb_turn.specs.Passes.{IsAt};
ghost use Rattle.osb_turn.specs.Rows.{first_view, AreNewSeats, HasTakenIn};
ghost use Rattle.osb_turn.specs.Seats.{state_seen, IsAlwaysReady, IsSeatOf, AreSeatsOf, HaveSeenNothing, Looks, Acts, Closes};

use crate::Played;
use crate::law::{Law, NewSeat, TakeIn};
use crate::turns::{Line, Pass, begin, enter, leave, play_at};
use crate::views::View;
use atomic_table::Table;
use osb_base::{NoMemory, WorkerNo};
use std::alloc::Global;
use std::marker::{Brand, Model};
use std::sync::Wait;

/// A worker's place at a turnstile, which contracts see as what the worker knows of the history.
#[derive(Drop)]
pub struct Seat<S: Played> {
    worker: WorkerNo,
    pass: Pass<S>,
}

impl<S: Played> Model for Seat<S> {
    ghost use Rattle.std.specs.Prelude.{◌≡◌, []};
    ghost use Rattle.osb_turn.specs.declared.views.Stage.TheVariants.{Idle};
    ghost use Rattle.osb_turn.specs.Seats.{SeatState};

    ghost Value = { SeatState S S.Action S.Reply };

    ghost view = { λ s. record { table = s.pass.table_id; opening = s.pass.me.0.opening; made = s.pass.me.0.made; worker = s.worker; seen = s.pass.me.0.seen; mine = s.pass.me.0.mine } };

    ghost invariant = { λ s. (s.pass.me.0.worker ≡ s.worker) × (s.pass.me.0.stage ≡ Idle) × (s.pass.me.1 ≡ []) };
}

/// A state that threads share, each through a seat of its own.
#[derive(Drop)]
pub struct Turnstile<S: Played> {
    table: Table<Option<S>, View<S, <S as Played>::Action, <S as Played>::Reply>, S, Law, Global>,
    workers: u32,
}

impl<S: Played> Model for Turnstile<S> {
    ghost use Rattle.std.specs.Prelude.{◌≡◌, ◌<◌};
    ghost use Rattle.osb_turn.specs.Seats.{TurnstileState};

    ghost Value = { TurnstileState S };

    ghost view = { λ t. record { table = t.table.shared.table_id; opening = t.table.shared.key; workers = t.workers } };

    ghost invariant = { λ t. (t.table.shared.table_id.words ≡ 2) × (t.table.shared.table_id.slots ≡ 1) × (0 < t.workers) };
}

/// The first seat, and the others, which are split from it.
fn make_seats<S: Played + Drop>(
    alloc: Global,
    line: &Line<S>,
    mut first: Pass<S>,
    workers: u32,
) -> Result<Vec<Seat<S>>, NoMemory>
    requires workers { (0 < workers) × (workers ≤ 64) }
    requires at { IsAt line.now.table_id line.now.key first }
    requires first { first.me ≡ (first_view line.now.key 1, []) }
    ensures seats { IfOk result (λ seats. AreNewSeats line.now.table_id line.now.key workers seats.items) }
{
    let mut seats = Vec::with_capacity(alloc, workers as usize)?;
    for number in 1..workers {
        let pass = line.split_seat::<NewSeat>(&mut first);
        let worker = WorkerNo(number);
        seats.push(Seat { worker, pass })?;
    }
    let worker = WorkerNo(0);
    seats.insert(
        0,
        Seat {
            worker,
            pass: first,
        },
    )?;
    Ok(seats)
}

/// The first seat takes in the others.
fn take_in<S: Played + Drop>(line: &Line<S>, first: Seat<S>, mut others: Vec<Seat<S>>) -> Pass<S>
    requires words { 0 < line.now.table_id.words }
    requires first { first.table ≡ line.now.table_id }
    requires others { All (λ seat. seat.table ≡ line.now.table_id) others.items }
    ensures kept { HasTakenIn first others.items result }
{
    let Seat {
        worker: _,
        pass: mut kept,
    } = first;
    while let Some(other) = others.pop() {
        let Seat { worker: _, pass } = other;
        line.join_seat::<TakeIn>(&mut kept, pass);
    }
    kept
}

impl<S: Played + Drop> Turnstile<S> {
    /// Seat `i` of the list is that of worker `i`.
    pub fn open(
        alloc: Global,
        state: S,
        workers: u32,
    ) -> Result<(Turnstile<S>, Vec<Seat<S>>), NoMemory>
        requires workers { (0 < workers) × (workers ≤ 64) }
        requires valid { S.valid state }
        ensures opening { IfOk result (λ made. made.0.opening ≡ state) }
        ensures workers { IfOk result (λ made. made.0.workers ≡ workers) }
        ensures seats { IfOk result (λ made. AreSeatsOf S.gives S.after S.is_ready S.allows made.0 made.1.items) }
        ensures empty { IfOk result (λ made. HaveSeenNothing made.1.items) }
    {
        let (table, mut first) = Table::vacant(alloc, &[1, 0], 1, &state)?;
        begin(&table.shared, &mut first, state);
        let seats = make_seats(alloc, &table.shared, first, workers)?;
        Ok((Turnstile { table, workers }, seats))
    }

    /// The state as the last turn left it.
    pub fn close(self, mut seats: Vec<Seat<S>>) -> Result<S, (Turnstile<S>, Vec<Seat<S>>)>
        requires all { AreSeatsOf S.gives S.after S.is_ready S.allows self seats.items }
        ensures closes { IfOk result (λ state. Closes S.gives S.after S.is_ready S.allows self seats.items state) }
        ensures back { IfErr result (λ back. (back.0 ≡ self) × (back.1 ≡ seats)) }
    {
        let Turnstile { table, workers: _ } = self;
        let first = seats.remove(0);
        let kept = take_in(&table.shared, first, seats);
        let mut closed = table.close_with(kept);
        let state = closed.take(0);
        closed.free();
        match state {
            Some(state) => Ok(state),
            None => unreachable!(),
        }
    }
}

impl<S: Played> Turnstile<S> {
    /// Waits for the seat's turn, and plays the action at it.
    pub fn act(
        &self,
        rt: &impl Wait,
        alloc: Global,
        seat: &mut Seat<S>,
        action: S::Action,
    ) -> Result<S::Reply, NoMemory>
        requires own { IsSeatOf S.gives S.after S.is_ready S.allows self.now seat.old }
        requires allowed { S.allows (state_seen S.after self.now seat.old) seat.old.worker action }
        requires ready { IsAlwaysReady S.is_ready S.valid seat.old.worker action }
        ensures own { IsSeatOf S.gives S.after S.is_ready S.allows self.now seat.new }
        ensures worker { seat.new.worker ≡ seat.old.worker }
        ensures acts { MatchResult result (λ reply. Acts S.gives S.after S.is_ready S.part self.now seat.old action reply seat.new) (λ _. Looks S.after S.part self.now seat.old seat.new) }
        ensures sure { S.refusable action ≡ false → IsOk result }
    {
        let line = &self.table.shared;
        let state = enter(rt, line, &mut seat.pass);
        play_at::<S, Brand>(alloc, line, &mut seat.pass, state, seat.worker, action)
    }

    /// Waits for the seat's turn, and plays the action if it is ready then.
    pub fn ask(
        &self,
        rt: &impl Wait,
        alloc: Global,
        seat: &mut Seat<S>,
        action: S::Action,
    ) -> Result<Option<S::Reply>, NoMemory>
        requires own { IsSeatOf S.gives S.after S.is_ready S.allows self.now seat.old }
        requires allowed { S.allows (state_seen S.after self.now seat.old) seat.old.worker action }
        ensures own { IsSeatOf S.gives S.after S.is_ready S.allows self.now seat.new }
        ensures worker { seat.new.worker ≡ seat.old.worker }
        ensures acts { MatchResult result (λ answer. MatchOption answer (Looks S.after S.part self.now seat.old seat.new) (λ reply. Acts S.gives S.after S.is_ready S.part self.now seat.old action reply seat.new)) (λ _. Looks S.after S.part self.now seat.old seat.new) }
        ensures none { IfOk result (λ answer. MatchOption answer (S.is_ready (state_seen S.after self.now seat.new) seat.old.worker action ≡ false) (λ _. Unit {0})) }
        ensures sure { S.refusable action ≡ false → IsOk result }
    {
        let line = &self.table.shared;
        let state = enter(rt, line, &mut seat.pass);
        if !state.ready(seat.worker, &action) {
            leave(line, &mut seat.pass, state);
            return Ok(None);
        }
        let reply = play_at::<S, Brand>(alloc, line, &mut seat.pass, state, seat.worker, action)?;
        Ok(Some(reply))
    }
}
