//! Laws of the shared state that callers' proofs rest on, each as the contract of a function that does nothing.
ghost use Rattle.osb_state.specs.Laws.{ValidStays, PartStays, OwnMoves};
ghost use Rattle.osb_state.specs.Replies.{RepliesFit, RepliesAreTrue};
ghost use Rattle.osb_state.specs.Truth.{TrueOpens, TrueStays, RunsKeep};
ghost use Rattle.osb_state.specs.TurnLaws.{JobsStay, TurnsAreSteps};
ghost use Rattle.osb_state.specs.RunLogs.{RunsHaveLogs};
ghost use Rattle.osb_state.specs.KeptLogs.{RunsAreKept};
ghost use Rattle.osb_state.specs.Filling.{RunsFill};
ghost use Rattle.osb_state.specs.Spent.{BlocksAreSpent};
ghost use Rattle.osb_state.specs.Serial.{TurnsAreSerial};

/// What every allowed action keeps.
pub fn valid_stays()
    ensures law { ValidStays }
{}

/// What an action leaves of the other workers' parts.
pub fn part_stays()
    ensures law { PartStays }
{}

/// What an action does to its own worker's part.
pub fn own_moves()
    ensures law { OwnMoves }
{}

/// That a job's conditions on replies are met.
pub fn replies_fit()
    ensures law { RepliesFit }
{}

/// What a job is told over a true opening.
pub fn replies_are_true()
    ensures law { RepliesAreTrue }
{}

/// That a state over a true opening is true.
pub fn true_opens()
    ensures law { TrueOpens }
{}

/// What the script's actions keep.
pub fn true_stays()
    ensures law { TrueStays }
{}

/// What holds in every state of a run.
pub fn runs_keep()
    ensures law { RunsKeep }
{}

/// What a turn keeps, over every opening.
pub fn jobs_stay()
    ensures law { JobsStay }
{}

/// What a turn is, over a true opening.
pub fn turns_are_steps()
    ensures law { TurnsAreSteps }
{}

/// That the log of a schedule's run is one.
pub fn runs_have_logs()
    ensures law { RunsHaveLogs }
{}

/// What a run from a true opening keeps from its first entry to its last.
pub fn runs_are_kept()
    ensures law { RunsAreKept }
{}

/// What stands in the cache after a run for which there was room.
pub fn runs_fill()
    ensures law { RunsFill }
{}

/// How many stages a worker runs in a block.
pub fn blocks_are_spent()
    ensures law { BlocksAreSpent }
{}

/// What the turns of one worker come to.
pub fn turns_are_serial()
    ensures law { TurnsAreSerial }
{}
