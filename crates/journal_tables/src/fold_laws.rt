//! What a fold keeps of each connection and call, each law the contract of a function that does nothing.
ghost use Rattle.journal_tables.specs.Kept.{AcceptsNext, HoldsAccepts, HoldsCalls, HoldsJoins, HoldsSinceAccept, HoldsSinceJoin, JoinsNext, KeepsAccepts, KeepsJoins, KeepsReplies};

/// A connection joins with the number that follows those that joined before.
pub fn joins_next()
    ensures { JoinsNext }
{}

/// A call is accepted with the number that follows those that were accepted before.
pub fn accepts_next()
    ensures { AcceptsNext }
{}

/// The Join of an open connection and all that came after it stand in the folded journal.
pub fn keeps_joins()
    ensures { KeepsJoins }
{}

/// So do the Accept of a running call and all that came after it.
pub fn keeps_accepts()
    ensures { KeepsAccepts }
{}

/// The Joins of a fold are the journal's with a number above the joins of its base, so of each connection that was folded
/// away the number is at most these.
pub fn holds_joins()
    ensures { HoldsJoins }
{}

/// So are its Accepts.
pub fn holds_accepts()
    ensures { HoldsAccepts }
{}

/// Each call of a connection whose Join a fold has, has its Accept there.
pub fn holds_calls()
    ensures { HoldsCalls }
{}

/// All that came after a Join stands in each fold that has the Join.
pub fn holds_since_join()
    ensures { HoldsSinceJoin }
{}

/// All that came after an Accept stands in each fold that has the Accept.
pub fn holds_since_accept()
    ensures { HoldsSinceAccept }
{}

/// A call whose Accept a fold has is told what it is told by the whole journal, where that has ended too.
pub fn keeps_replies()
    ensures { KeepsReplies }
{}
