//! Laws of the definitions, each the contract of a function that does nothing.
ghost use Rattle.replay_script.specs.Laws.{EntryCounts, GroupCounts, QuietCount, TellsMore};

/// A further entry of a journal adds what it counts.
#[tactic(auto, using(crate::proofs::Counting::entry_counts))]
pub fn entry_counts()
    ensures { EntryCounts }
{}

/// So does a further journal.
#[tactic(auto, using(crate::proofs::Counting::group_counts))]
pub fn group_counts()
    ensures { GroupCounts }
{}

/// Entries of connections, and of calls whose answers are dropped, add nothing.
#[tactic(auto, using(crate::proofs::Counting::quiet_count))]
pub fn quiet_count()
    ensures { QuietCount }
{}

/// Counts that tell of the entries so far tell of one more once it is added.
#[tactic(auto, using(crate::proofs::Counting::tells_more))]
pub fn tells_more()
    ensures { TellsMore }
{}
