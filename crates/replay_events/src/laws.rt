//! Laws of the definitions, each the contract of a function that does nothing.
ghost use Rattle.replay_events.specs.Laws.{TotalsGrow, TotalsStay, TotalsOpen};

/// The totals of all connections grow by as much as one connection's counts.
pub fn totals_grow()
    ensures { TotalsGrow }
{}

/// A connection on which nothing further happened leaves the totals.
pub fn totals_stay()
    ensures { TotalsStay }
{}

/// A connection on which nothing happened yet adds nothing to the totals.
pub fn totals_open()
    ensures { TotalsOpen }
{}
