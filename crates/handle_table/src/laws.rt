//! What the table of a legal journal shows, each law the contract of a function that does nothing.
ghost use Rattle.handle_table.specs.Laws.{ShowsBase, ShowsLive, ShowsKind, ShowsFaults, ShowsCookies, FollowsEntries, GrowsWithin};

/// The live handles of a base are its handles.
pub fn shows_base()
    ensures { ShowsBase }
{}

/// A serial is found exactly where its handle is live.
pub fn shows_live()
    ensures { ShowsLive }
{}

/// With the kind of the slot that issued it, and the cookie that was given last.
pub fn shows_kind()
    ensures { ShowsKind }
{}

/// The first slot of a call that is at fault is that of the journal.
pub fn shows_faults()
    ensures { ShowsFaults }
{}

/// The cookies of a call without a fault are those of the journal.
pub fn shows_cookies()
    ensures { ShowsCookies }
{}

/// An end of a call changes the table by its results, a Shut empties it, and no other entry changes
/// it.
pub fn follows_entries()
    ensures { FollowsEntries }
{}

/// The end of a call adds no more handles than its slots may issue.
pub fn grows_within()
    ensures { GrowsWithin }
{}
