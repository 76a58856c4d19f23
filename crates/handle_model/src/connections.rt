//! In what order the entries of a connection stand.
ghost use Rattle.handle_model.specs.Connections.{LeavesAfterJoin, JoinsOnce, JoinsNew, LeavesOnce, AcceptsOfOpen};

/// A connection joins before it leaves.
pub fn leaves_after_join()
    ensures { LeavesAfterJoin }
{}

/// A connection joins once.
pub fn joins_once()
    ensures { JoinsOnce }
{}

/// A connection that joins has a number that none had.
pub fn joins_new()
    ensures { JoinsNew }
{}

/// A connection leaves once.
pub fn leaves_once()
    ensures { LeavesOnce }
{}

/// A call is accepted of a connection that is open.
pub fn accepts_of_open()
    ensures { AcceptsOfOpen }
{}
