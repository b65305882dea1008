//! Eight threads on one counter.
ghost use Rattle.std.specs.Prelude.{◌≡◌, ◌+◌, ◌%◌, ◌^◌, true, false, refl};
ghost use Rattle.osb_turn.specs.Seats.{IsSeatOf, AreSeatsOf};

use crate::{Played, Seat, Turnstile};
use osb_base::{NoMemory, WorkerNo};
use std::alloc::Global;
use std::sync::Wait;
use std::test::Fail;
use std::thread::{Threads, for_each_mut};

#[derive(Debug, Drop)]
struct Counter {
    count: u64,
}

#[derive(Clone, Copy)]
struct Add;

impl Played for Counter {
    type Action = Add;

    type Reply = u64;

    type Part = ();

    ghost gives = { λ s worker action. (s.count + 1) % 2 ^ 64 };

    ghost after = { λ s worker action. record { count = (s.count + 1) % 2 ^ 64 } };

    ghost is_ready = { λ s worker action. true };

    ghost refusable = { λ action. false };

    ghost valid = { λ s. Unit {0} };

    ghost part = { λ s worker. tt };

    ghost allows = { λ s worker action. Unit {0} };

    fn ready(&self, _worker: WorkerNo, _action: &Add) -> bool {
        true
    }

    fn play(&mut self, _alloc: Global, _worker: WorkerNo, _action: Add) -> Result<u64, NoMemory> {
        self.count = self.count.wrapping_add(1);
        Ok(self.count)
    }

    ghost by_part = { λ s t worker action v w same allowed. tt };

    ghost valid_stays = { λ s worker action v allowed. tt };

    ghost part_stays = { λ s worker other action v allowed differs. refl };
}

fn add_often(
    rt: &impl Wait,
    alloc: Global,
    turnstile: &Turnstile<Counter>,
    seat: &mut Seat<Counter>,
)
    requires own { IsSeatOf ⟦<Counter as Played>⟧.gives ⟦<Counter as Played>⟧.after ⟦<Counter as Played>⟧.is_ready ⟦<Counter as Played>⟧.allows turnstile.now seat.old }
    ensures own { IsSeatOf ⟦<Counter as Played>⟧.gives ⟦<Counter as Played>⟧.after ⟦<Counter as Played>⟧.is_ready ⟦<Counter as Played>⟧.allows turnstile.now seat.new }
    ensures worker { seat.new.worker ≡ seat.old.worker }
{
    for _ in 0..1000 {
        let _ = turnstile.act(rt, alloc, seat, Add);
    }
}

fn add_by_all<R: Threads + Wait + Sync>(
    rt: &R,
    alloc: Global,
    turnstile: &Turnstile<Counter>,
    seats: &mut [Seat<Counter>],
)
    requires { AreSeatsOf ⟦<Counter as Played>⟧.gives ⟦<Counter as Played>⟧.after ⟦<Counter as Played>⟧.is_ready ⟦<Counter as Played>⟧.allows turnstile.now seats.old }
    ensures { AreSeatsOf ⟦<Counter as Played>⟧.gives ⟦<Counter as Played>⟧.after ⟦<Counter as Played>⟧.is_ready ⟦<Counter as Played>⟧.allows turnstile.now seats.new }
{
    let work = |_place: usize, seat: &mut Seat<Counter>|
        requires { IsSeatOf (λ s worker action. (s.count + 1) % 2 ^ 64) (λ s worker action. record { count = (s.count + 1) % 2 ^ 64 }) (λ s worker action. true) (λ s worker action. Unit {0}) turnstile.now seat.now }
        ensures { IsSeatOf (λ s worker action. (s.count + 1) % 2 ^ 64) (λ s worker action. record { count = (s.count + 1) % 2 ^ 64 }) (λ s worker action. true) (λ s worker action. Unit {0}) turnstile.entry.now seat.exit.now × (seat.exit.now.worker ≡ seat.entry.now.worker) }
    { add_often(rt, alloc, turnstile, seat) };
    for_each_mut(rt, seats, 8, &work);
}

#[test]
fn eight_threads_count_to_eight_thousand(rt: HostRuntime) -> Result<(), Fail> {
    let (turnstile, mut seats) = Turnstile::open(rt.alloc(), Counter { count: 0 }, 8)?;
    add_by_all(&rt, rt.alloc(), &turnstile, seats.as_mut_slice());
    let counter = turnstile.close(seats).ok().ok_or("closed")?;
    assert_eq!(rt; counter.count, 8000);
    Ok(())
}
