//! Which connections are open, and how many connections, calls and serials there were.
ghost use Rattle.std.specs.Prelude.{◌≡◌, ◌+◌};
ghost use Rattle.handle_model.specs.Limits.{join_limit_at, accept_limit_at};

use handle_model::{AcceptLimit, JoinLimit};
use journal_tables::ConnTable;

/// The open connections, how many joined, how many calls were accepted, and the last serial.
#[derive(Drop)]
pub struct Counts {
    pub conns: ConnTable,
    pub joined: u32,
    pub accepted: u32,
    pub opened: u32,
}

/// Why a further connection is not taken, where so many are open and so many joined.
pub fn join_limit(conns: usize, joined: u32) -> Option<JoinLimit>
    ensures { result ≡ join_limit_at conns (joined + 1) }
{
    handle_model::join_limit(conns as u128, u128::from(joined) + 1)
}

/// Why a further call that may issue so many handles is not accepted: where so many were accepted, with
/// this last serial, and with so many calls that are not over, live handles, and handles that those
/// calls may issue.
pub fn accept_limit(
    accepted: u32,
    opened: u32,
    calls: usize,
    live: usize,
    openings: usize,
    opens: usize,
) -> Option<AcceptLimit>
    ensures { result ≡ accept_limit_at calls (live + openings + opens) (accepted + 1) (opened + opens) }
{
    handle_model::accept_limit(
        calls as u128,
        live as u128 + openings as u128 + opens as u128,
        u128::from(accepted) + 1,
        u128::from(opened) + opens as u128,
    )
}
