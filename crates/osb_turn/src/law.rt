//! The rule of the turnstile's table, and what each step on it tells.
ghost use Rattle.std.specs.Prelude.{Option, None};
ghost use Rattle.osb_turn.specs.Rule.{Turns, opened, began, drew, looked, announced, passed, with_joined, with_seat_made, new_seat, spent};
ghost use Rattle.osb_turn.specs.declared.views.Entry.{Entry as EntryOf};

use crate::Played;
use crate::views::View;
use atomic_table::{Join, Play, Split, TableRule};
use std::marker::{Brand, PhantomData};

pub(crate) struct Law;

impl<S: Played> TableRule<Option<S>, View<S, S::Action, S::Reply>, S> for Law {
    ghost holds = { Turns S.gives S.after S.is_ready S.allows S.valid };

    ghost first = { opened };
}

// The first look, at the first seat's turn.
pub(crate) struct Begin;

impl<S, A, R> Play<Option<S>, View<S, A, R>> for Begin {
    ghost then = { began };
}

pub(crate) struct Draw;

impl<S, A, R> Play<Option<S>, View<S, A, R>> for Draw {
    ghost then = { drew };
}

pub(crate) struct Look;

impl<S: Played> Play<Option<S>, View<S, S::Action, S::Reply>> for Look {
    ghost then = { looked S.gives S.after S.is_ready S.allows S.valid };
}

// The entry that a turn adds, for the proof alone. A call at `Brand` picks it.
pub(crate) trait Said<A, R> {
    ghost entry: { Option (EntryOf A R) };
}

impl<A, R> Said<A, R> for Brand {
    ghost entry = { None };
}

pub(crate) struct Announce<W> {
    said: PhantomData<W>,
}

impl<S, A, R, W: Said<A, R>> Play<Option<S>, View<S, A, R>> for Announce<W> {
    ghost then = { announced W.entry };
}

pub(crate) struct PassOn;

impl<S, A, R> Play<Option<S>, View<S, A, R>> for PassOn {
    ghost then = { passed };
}

pub(crate) struct NewSeat;

impl<S, A, R> Split<View<S, A, R>> for NewSeat {
    ghost left = { with_seat_made };

    ghost right = { new_seat };
}

pub(crate) struct TakeIn;

impl<S, A, R> Join<View<S, A, R>> for TakeIn {
    ghost both = { with_joined };

    ghost spent = { spent };
}
