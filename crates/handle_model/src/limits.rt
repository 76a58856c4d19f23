//! When a group takes no further connection, and no further call.
ghost use Rattle.std.specs.Prelude.{◌≡◌};
ghost use Rattle.handle_model.specs.Limits as spec;

/// Why a group accepts no further call.
#[derive(Clone, Copy, Debug, PartialEq, Eq)]
pub enum AcceptLimit {
    /// 256 calls wait or run.
    Calls,
    /// There would be more than 65,536 handles, live or yet to be issued by calls that are not over.
    Handles,
    /// The call's number or a serial would pass 32 bits.
    Numbers,
}

/// Why a group takes no further connection.
#[derive(Clone, Copy, Debug, PartialEq, Eq)]
pub enum JoinLimit {
    /// 64 connections are open.
    TooMany,
    /// The connection's number would pass 32 bits.
    Numbers,
}

/// How many connections of a group may be open.
pub const MOST_CONNS: u128 = 64;

/// How many calls of a group may wait or run.
pub const MOST_CALLS: u128 = 256;

/// How many handles may be live in a group, or yet to be issued.
pub const MOST_HANDLES: u128 = 65_536;

/// How many numbers and serials 32 bits have, 0 among them.
const NUMBERS: u128 = 1 << 32;

/// Why a further connection is not taken, where so many are open and this would be its number.
pub fn join_limit(count: u128, number: u128) -> Option<JoinLimit>
    ensures { result ≡ spec.join_limit_at count number }
{
    if count >= MOST_CONNS {
        Some(JoinLimit::TooMany)
    } else if number >= NUMBERS {
        Some(JoinLimit::Numbers)
    } else {
        None
    }
}

/// Why a further call is not accepted, where so many wait or run, so many handles are live or may yet
/// be issued, by that call too, and these would be its number and its last serial.
pub fn accept_limit(calls: u128, handles: u128, number: u128, last: u128) -> Option<AcceptLimit>
    ensures { result ≡ spec.accept_limit_at calls handles number last }
{
    if calls >= MOST_CALLS {
        Some(AcceptLimit::Calls)
    } else if handles > MOST_HANDLES {
        Some(AcceptLimit::Handles)
    } else if number >= NUMBERS || last >= NUMBERS {
        Some(AcceptLimit::Numbers)
    } else {
        None
    }
}
