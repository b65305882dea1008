//! Of the definitions alone: calls that do nothing, whose contracts are laws.
ghost use Rattle.std.specs.Prelude.{ℕ, List, Result};
ghost use Rattle.osb_base.specs.Fetchers.{FetcherState};
ghost use Rattle.osb_sources.specs.declared.items.Items.{Items};
ghost use Rattle.osb_sources.specs.declared.answers.SourceAnswer.{SourceAnswer};
ghost use Rattle.osb_sources.specs.Rounds.{Gathers, live};
ghost use Rattle.osb_sources.specs.Counts.{AreRisen, failures};

/// The count of each fetcher that isn't gone rose by as much as calls of it failed, at least, or stands at its last
/// value.
pub fn counts_rise()
    ensures law { (items : Items) (digests : List (List ℕ)) (before now : List FetcherState) (result : Result (List (List ℕ)) SourceAnswer) (gathered : Gathers items digests before now result) → AreRisen (live before) (live now) (failures gathered) }
{}
