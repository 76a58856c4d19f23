//! What the calls of a group answer.
ghost use Rattle.std.specs.Prelude.{◌≡◌};
ghost use Rattle.group_core.specs.Refusals.{refusal_of};

use handle_model::{AcceptLimit, CookieRow, DueList};
use rpc_base::NoMemory;

/// Why a connection was not taken into the group.
#[derive(Clone, Copy, Debug, PartialEq, Eq)]
pub enum JoinRefusal {
    /// 64 connections are open.
    TooMany,
    /// The connection's number would pass 32 bits.
    Numbers,
    /// Want of memory.
    Memory,
}

impl From<NoMemory> for JoinRefusal {
    ghost use Rattle.std.specs.Prelude.{◌≡◌};
    ghost use Rattle.group_core.specs.declared.answer.JoinRefusal.TheVariants.{Memory};

    ghost from_gives = { λ _ e. e ≡ Memory };

    fn from(_: NoMemory) -> Self {
        JoinRefusal::Memory
    }
}

/// Why a call was not accepted.
#[derive(Clone, Copy, Debug, PartialEq, Eq)]
pub enum AcceptRefusal {
    /// 256 calls wait or run.
    Calls,
    /// There would be more than 65,536 handles, live or yet to be issued by calls that are not over.
    Handles,
    /// The call's number or a serial would pass 32 bits.
    Numbers,
    /// Want of memory.
    Memory,
}

impl AcceptRefusal {
    /// The refusal for a limit that is reached.
    pub(crate) fn of(limit: AcceptLimit) -> AcceptRefusal
        ensures { result ≡ refusal_of limit }
    {
        match limit {
            AcceptLimit::Calls => AcceptRefusal::Calls,
            AcceptLimit::Handles => AcceptRefusal::Handles,
            AcceptLimit::Numbers => AcceptRefusal::Numbers,
        }
    }
}

/// What became of the wish to take a call.
#[derive(Clone, Copy, Debug, PartialEq, Eq)]
pub enum Taking {
    /// It is taken. Its slots have these cookies, and the first of those that may issue a handle has
    /// this serial, 0 where there is none; the serials of the others follow one by one.
    Run(CookieRow, u32),
    /// It is denied: the slot of that index is the first at fault.
    Denied(u8),
    /// It doesn't wait.
    Dropped,
    /// It has to wait for that call.
    Wait(u32),
}

/// What a cancel of a call came to.
#[derive(Clone, Copy, Debug, PartialEq, Eq)]
pub enum Cancelled {
    /// It was waiting, and is over.
    Ended,
    /// It runs, and was asked to end.
    Flagged,
    /// It was over, or had been asked before.
    Late,
}

/// What an orphaning of a call came to.
#[derive(Clone, Copy, Debug, PartialEq, Eq)]
pub enum Orphaned {
    /// It was waiting, and is over.
    Dropped,
    /// It runs, and its answer is not sent.
    Running,
    /// It was over, or had been orphaned before.
    Late,
}

/// Where a call is.
#[derive(Clone, Copy, Debug, PartialEq, Eq)]
pub enum Stage {
    Waiting,
    Running,
    /// It is over, or was never accepted.
    Over,
}

/// Whether the group goes on.
pub enum Rest {
    Stays,
    /// It has ended, and these handles are to be run down.
    Shut(DueList),
}
