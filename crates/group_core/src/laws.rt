//! What each call of a group makes of its history, each law the contract of a function that does nothing.
ghost use Rattle.group_core.specs.Grows.{AcceptsGrow, CancelsGrow, EndsGrow, GrowsOn, JoinsGrow, LeavesGrow, OrphansGrow, StaysEarlier, TakesGrow};

/// A connection that joins adds to the folded history; where one is refused, nothing is folded and nothing added.
pub fn joins_grow()
    ensures { JoinsGrow }
{}

/// An accept adds to the history, or leaves it.
pub fn accepts_grow()
    ensures { AcceptsGrow }
{}

/// So does a take.
pub fn takes_grow()
    ensures { TakesGrow }
{}

/// So does a cancel.
pub fn cancels_grow()
    ensures { CancelsGrow }
{}

/// So does an orphaning.
pub fn orphans_grow()
    ensures { OrphansGrow }
{}

/// So does the end of a call.
pub fn ends_grow()
    ensures { EndsGrow }
{}

/// So does a leave.
pub fn leaves_grow()
    ensures { LeavesGrow }
{}

/// What grows twice has grown.
pub fn grows_on()
    ensures { GrowsOn }
{}

/// The history before is that of an earlier moment, which goes on from the same base.
pub fn stays_earlier()
    ensures { StaysEarlier }
{}
