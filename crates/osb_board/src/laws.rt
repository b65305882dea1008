//! Laws of boards that callers' proofs rest on, each as the contract of a function that does nothing.
ghost use Rattle.osb_board.specs.Laws.{ClaimIsLeast, IdleIsHeldUp, IdleBoardIsIdleClaim, RunsNone, ClaimChangesOne, DoneChangesOne, BoardsStay};

/// Which task a claim gives.
pub fn claim_is_least<O>()
    ensures law { ClaimIsLeast O }
{}

/// Whom a worker waits for.
pub fn idle_is_held_up<O>()
    ensures law { IdleIsHeldUp O }
{}

/// When a claim has to wait.
pub fn idle_board_is_idle_claim<O>()
    ensures law { IdleBoardIsIdleClaim O }
{}

/// Which workers may claim.
pub fn runs_none<O>()
    ensures law { RunsNone O }
{}

/// What a claim changes.
pub fn claim_changes_one<O>()
    ensures law { ClaimChangesOne O }
{}

/// What the end of a task changes.
pub fn done_changes_one<O>()
    ensures law { DoneChangesOne O }
{}

/// What every call keeps.
pub fn boards_stay<O>()
    ensures law { BoardsStay O }
{}
