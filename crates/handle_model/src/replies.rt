//! What the caller of a call is told, and when.
ghost use Rattle.handle_model.specs.ReplyLaws.{ReplyStays, DenyReplies, CancelReplies, EndReplies, OrphanReplies, LeaveReplies, NeverIsUntaken, RanHasEnded};

use crate::calls::decided_once;

/// A reply stays, once it is more than "nothing yet".
pub fn reply_stays()
    ensures { ReplyStays }
{}

/// A call that is denied gets a fault, and didn't run.
pub fn deny_replies()
    ensures { DenyReplies }
{}

/// So does a waiting call that is cancelled.
pub fn cancel_replies()
    ensures { CancelReplies }
{}

/// A call that ends gets what its End says, unless it was orphaned or its connection has left.
pub fn end_replies()
    ensures { EndReplies }
{}

/// A call that is orphaned gets nothing.
pub fn orphan_replies()
    ensures { OrphanReplies }
{}

/// Nor does a call without a reply whose connection leaves.
pub fn leave_replies()
    ensures { LeaveReplies }
{}

/// A call whose caller is told that it never ran was never taken.
pub fn never_is_untaken()
    ensures { NeverIsUntaken }
{
    decided_once();
}

/// What a caller is told that its call said is what an End of the call says.
pub fn ran_has_ended()
    ensures { RanHasEnded }
{}
