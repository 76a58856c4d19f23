//! What each call of a group makes the reply of a call, each law the contract of a function that does nothing.
ghost use Rattle.group_core.specs.Replies.{CancelsReply, DeniesReply, DropsReply, EndsReply, LeavesReply, OrphansReply, RepliesStay};

/// A reply stays, once it is more than "nothing yet".
pub fn replies_stay()
    ensures { RepliesStay }
{}

/// A call that is denied for a handle gets a fault, and never ran.
pub fn denies_reply()
    ensures { DeniesReply }
{}

/// So does one that is cancelled while it waits.
pub fn cancels_reply()
    ensures { CancelsReply }
{}

/// One that is orphaned while it waits gets nothing.
pub fn drops_reply()
    ensures { DropsReply }
{}

/// Nor does one that is orphaned while it runs.
pub fn orphans_reply()
    ensures { OrphansReply }
{}

/// One that ends gets what its End says, unless it was lost before.
pub fn ends_reply()
    ensures { EndsReply }
{}

/// One whose connection leaves before anything was said gets nothing.
pub fn leaves_reply()
    ensures { LeavesReply }
{}
