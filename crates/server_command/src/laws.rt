//! Laws of the definitions, each the contract of a function that does nothing.
ghost use Rattle.server_command.specs.Laws.{OthersFollow, AnswersStay, MembersLast, FoldsTell, RoomIsTaken, JoinsAreTaken};

use rpc_outside::Link;
use server_calls::Manager;

/// In a legal journal all that comes behind a connection that is over is of others.
pub fn others_follow()
    ensures { OthersFollow }
{}

/// What a connection answered are the answers by each longer journal too in which others entered what is newer.
pub fn answers_stay()
    ensures { AnswersStay }
{}

/// What a served connection came to in its group holds by each journal of the group that goes on from the one that its pass
/// had seen at its end: what it entered and why, and what it answered.
pub fn members_last<M: Manager, K: Link>()
    ensures { (m : M) → MembersLast K.shows (M.may m) (M.tables m) }
{}

/// A fold of a journal in which a connection's Join still stands tells of the connection what the whole journal tells.
pub fn folds_tell()
    ensures { FoldsTell }
{}

/// Where a shard had no room for a further group, its first 64 ids were opened.
pub fn room_is_taken()
    ensures { RoomIsTaken }
{}

/// Where a group took no further connection, at least 64 had joined it.
pub fn joins_are_taken()
    ensures { JoinsAreTaken }
{}
