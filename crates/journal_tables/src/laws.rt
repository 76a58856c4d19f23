//! What the tables of a legal journal show, each law the contract of a function that does nothing.
ghost use Rattle.journal_tables.specs.Laws.{ShowsBase, AdmitsAllowed, FollowsEntries, ShowsDue, ShowsConns, ShowsFloor};

/// The tables of a base are made of its lists.
pub fn shows_base()
    ensures { ShowsBase }
{}

/// The tables admit the entries that may come next, and no others.
pub fn admits_allowed()
    ensures { AdmitsAllowed }
{}

/// Each entry changes them as `enter` does.
pub fn follows_entries()
    ensures { FollowsEntries }
{}

/// The end of the group is due by them where it is due.
pub fn shows_due()
    ensures { ShowsDue }
{}

/// There are as many open connections.
pub fn shows_conns()
    ensures { ShowsConns }
{}

/// The journal may be folded up to their floor.
pub fn shows_floor()
    ensures { ShowsFloor }
{}
