//! One turn, step by step.
ghost use Rattle.std.specs.Prelude.{◌≡◌, ℕ, true, false, [], ◌∷◌, Some, None, MatchResult, IsOk};
ghost use Rattle.osb_turn.specs.declared.views.Stage.TheVariants.{Opening, Idle, Waiting};
ghost use Rattle.osb_turn.specs.Histories.{replay, entry_of};
ghost use Rattle.osb_turn.specs.Rule.{at_stage, in_turn, with_entry, IsServed};
ghost use Rattle.osb_turn.specs.Passes.{IsAt, IsSamePass, IsInTurn, Entered};

use crate::Played;
use crate::law::{Announce, Begin, Draw, Law, Look, PassOn, Said};
use crate::views::View;
use atomic_table::{Seat, Shared};
use osb_base::{NoMemory, WorkerNo};
use std::alloc::Global;
use std::sync::Wait;
use std::thread::yield_now;

/// The words and the slot that all threads share.
pub(crate) type Line<S> = Shared<
    Option<S>,
    View<S, <S as Played>::Action, <S as Played>::Reply>,
    S,
    Law,
>;

/// A seat at them.
pub(crate) type Pass<S> = Seat<Option<S>, View<S, <S as Played>::Action, <S as Played>::Reply>>;

/// The word with the next ticket.
const NEXT: usize = 0;

/// The word with the ticket that is served.
const SERVED: usize = 1;

/// The slot that has the state.
const STATE: usize = 0;

/// Numbers do not wrap: who has this ticket or a later one waits for ever.
const LAST: u64 = 1 << 63;

fn draw<S: Played>(line: &Line<S>, pass: &mut Pass<S>) -> u64
    requires at { IsAt line.now.table_id line.now.key pass.old }
    requires idle { pass.old.me.0.stage ≡ Idle }
    ensures same { IsSamePass pass.old pass.new }
    ensures drew { pass.new.me ≡ (at_stage (Waiting result) pass.old.me.0, pass.old.me.1) }
{
    line.fetch_add::<Draw>(pass, NEXT, 1)
}

/// Whether the ticket is served. Where it is, the seat has taken the state.
fn is_served<S: Played>(line: &Line<S>, pass: &mut Pass<S>, ticket: u64) -> bool
    requires at { IsAt line.now.table_id line.now.key pass.old }
    requires waits { pass.old.me.0.stage ≡ Waiting ticket }
    ensures same { IsSamePass pass.old pass.new }
    ensures served { result ≡ true → IsServed S.gives S.after S.is_ready S.allows S.valid line.now.key ticket pass.old.me pass.new.me }
    ensures later { result ≡ false → pass.new.me ≡ pass.old.me }
{
    ticket < LAST && line.load::<Look>(pass, SERVED) == ticket
}

fn wait_for<S: Played>(rt: &impl Wait, line: &Line<S>, pass: &mut Pass<S>, ticket: u64)
    requires at { IsAt line.now.table_id line.now.key pass.old }
    requires waits { pass.old.me.0.stage ≡ Waiting ticket }
    ensures same { IsSamePass pass.old pass.new }
    ensures served { IsServed S.gives S.after S.is_ready S.allows S.valid line.now.key ticket pass.old.me pass.new.me }
{
    for _ in rt.forever() {
        if is_served(line, pass, ticket) {
            return;
        }
        yield_now();
    }
    unreachable!()
}

/// Waits for the seat's turn, and takes the state.
pub(crate) fn enter<S: Played>(rt: &impl Wait, line: &Line<S>, pass: &mut Pass<S>) -> S
    requires at { IsAt line.now.table_id line.now.key pass.old }
    requires idle { (pass.old.me.0.stage ≡ Idle) × (pass.old.me.1 ≡ []) }
    ensures same { IsSamePass pass.old pass.new }
    ensures entered { Entered S.gives S.after S.is_ready S.allows S.valid line.now.key pass.old.me.0 result pass.new.me }
{
    let ticket = draw(line, pass);
    wait_for(rt, line, pass, ticket);
    match line.exchange(pass, STATE, None) {
        Some(state) => state,
        None => unreachable!(),
    }
}

/// Brings the state home, and passes the turn.
pub(crate) fn leave<S: Played>(line: &Line<S>, pass: &mut Pass<S>, state: S)
    requires at { IsAt line.now.table_id line.now.key pass.old }
    requires turn { IsInTurn pass.old.me }
    requires state { state ≡ replay S.after line.now.key pass.old.me.0.seen }
    ensures same { IsSamePass pass.old pass.new }
    ensures passed { pass.new.me ≡ (at_stage Idle pass.old.me.0, []) }
{
    match line.exchange(pass, STATE, Some(state)) {
        None => {}
        Some(_) => unreachable!(),
    }
    line.fetch_add::<PassOn>(pass, SERVED, 1);
}

/// The first turn, in which the opening state is brought.
pub(crate) fn begin<S: Played>(line: &Line<S>, pass: &mut Pass<S>, state: S)
    requires at { IsAt line.now.table_id line.now.key pass.old }
    requires opening { (pass.old.me.0.stage ≡ Opening) × (pass.old.me.1 ≡ []) }
    requires state { state ≡ line.now.key }
    ensures same { IsSamePass pass.old pass.new }
    ensures began { pass.new.me ≡ (at_stage Idle (in_turn 0 [] pass.old.me.0), []) }
{
    line.load::<Begin>(pass, SERVED);
    leave(line, pass, state);
}

/// Plays the action on the state that the seat has taken, adds the entry and ends the turn.
pub(crate) fn play_at<S: Played, W: Said<S::Action, S::Reply>>(
    alloc: Global,
    line: &Line<S>,
    pass: &mut Pass<S>,
    mut state: S,
    worker: WorkerNo,
    action: S::Action,
) -> Result<S::Reply, NoMemory>
    requires at { IsAt line.now.table_id line.now.key pass.old }
    requires turn { IsInTurn pass.old.me }
    requires state { state ≡ replay S.after line.now.key pass.old.me.0.seen }
    requires worker { worker ≡ pass.old.me.0.worker }
    requires valid { S.valid state }
    requires allowed { S.allows state worker action }
    requires ready { S.is_ready state worker action ≡ true }
    requires said { W.entry ≡ Some (entry_of S.gives state worker action) }
    ensures same { IsSamePass pass.old pass.new }
    ensures played { MatchResult result (λ reply. (reply ≡ S.gives state worker action) × (pass.new.me ≡ (at_stage Idle (with_entry (Some (entry_of S.gives state worker action)) pass.old.me.0), []))) (λ _. pass.new.me ≡ (at_stage Idle pass.old.me.0, [])) }
    ensures sure { S.refusable action ≡ false → IsOk result }
{
    match state.play(alloc, worker, action) {
        Ok(reply) => {
            line.load::<Announce<W>>(pass, SERVED);
            leave(line, pass, state);
            Ok(reply)
        }
        Err(refused) => {
            leave(line, pass, state);
            Err(refused)
        }
    }
}
