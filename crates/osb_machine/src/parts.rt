//! The shared state behind a turnstile.
ghost use Rattle.std.proofs.Common.{subst};
ghost use Rattle.osb_job.specs.Allowed.{Allowed};
ghost use Rattle.osb_state.specs.Kept.{Valid};
ghost use Rattle.osb_state.specs.States.{part, Allows, gives, after, is_ready, is_refusable};
ghost use Rattle.osb_state.proofs.OtherParts.{part_stays};
ghost use Rattle.osb_state.proofs.ValidMoves.{valid_stays};

use crate::Shared;
use osb_job::{Action, Reply};
use osb_tree::{NoMemory, WorkerNo};
use osb_turn::Played;
use std::alloc::Global;
use std::marker::Model;

/// What of the shared state is a worker's own. No value of it is made.
pub struct OwnPart;

impl Model for OwnPart {
    ghost use Rattle.std.specs.Prelude.{[], None};
    ghost use Rattle.osb_job.specs.Allowed.{Part};

    ghost Value = { Part };

    ghost view = { λ own. record { deps = []; keys = 0; mine = []; draft = None; chunks = None } };
}

impl Played for Shared {
    type Action = Action;

    type Reply = Reply;

    type Part = OwnPart;

    ghost gives = { gives };

    ghost after = { after };

    ghost is_ready = { λ state worker action. is_ready state action };

    ghost refusable = { is_refusable };

    ghost valid = { Valid };

    ghost part = { part };

    ghost allows = { Allows };

    fn ready(&self, worker: WorkerNo, action: &Action) -> bool {
        Shared::ready(self, worker, action)
    }

    fn play(&mut self, alloc: Global, worker: WorkerNo, action: Action) -> Result<Reply, NoMemory> {
        Shared::play(self, alloc, worker, action)
    }

    ghost by_part = { λ state other worker action valid others same allowed. subst (λ own. Allowed own action) same allowed };

    ghost valid_stays = { valid_stays };

    ghost part_stays = { part_stays };
}
