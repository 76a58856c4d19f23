//! What the table of a legal journal shows, each law the contract of a function that does nothing.
ghost use Rattle.call_table.specs.Ahead.{ShowsLast, NoneAheadOfFree};
ghost use Rattle.call_table.specs.Laws.{ShowsBase, ShowsRow, ShowsStage, ShowsSlots, ShowsBlocker, ShowsCounts, FollowsEntries, NumbersRise, ShowsCalls, ShowsAsked};

/// The rows of a base are those of its calls.
pub fn shows_base()
    ensures { ShowsBase }
{}

/// A call has the row that the journal gives it, and none where it is over.
pub fn shows_row()
    ensures { ShowsRow }
{}

/// A call waits or runs as in the journal.
pub fn shows_stage()
    ensures { ShowsStage }
{}

/// It has the slots of the journal.
pub fn shows_slots()
    ensures { ShowsSlots }
{}

/// What stands in the way of a waiting call is its blocker.
pub fn shows_blocker()
    ensures { ShowsBlocker }
{}

/// The last call in the way of a waiting call is that of the journal.
pub fn shows_last()
    ensures { ShowsLast }
{}

/// A waiting call has none in its way exactly where it has no blocker.
pub fn none_ahead_of_free()
    ensures { NoneAheadOfFree }
{}

/// There are as many calls, and as many handles that they may issue, as in the journal.
pub fn shows_counts()
    ensures { ShowsCounts }
{}

/// Each entry changes the table as the edit of that name does.
pub fn follows_entries()
    ensures { FollowsEntries }
{}

/// The number of a new call is above those of the table.
pub fn numbers_rise()
    ensures { NumbersRise }
{}

/// The calls, with what they asked, are those of the base that the journal gives.
pub fn shows_calls()
    ensures { ShowsCalls }
{}

/// What a call asked that waits or runs is found by its row.
pub fn shows_asked()
    ensures { ShowsAsked }
{}
