//! Moves.

use manager_api::Kepts;
use ndr_value::Message;

/// What happens next. Connections have the caller's names.
#[derive(Debug, Drop)]
pub enum Move {
    /// The caller opens a connection of a new name, and asks for the group of that id, 0 for a new one.
    Open {
        conn: u32,
        group: u32,
    },
    /// It starts a call of the operation of that number.
    Start {
        conn: u32,
        op: u16,
        message: Message,
    },
    /// So many octets come to the server.
    ToServer {
        conn: u32,
        octets: u32,
    },
    /// So many octets come to the caller.
    ToCaller {
        conn: u32,
        octets: u32,
    },
    /// The caller asks for the cancelling of the call that is out.
    Cancel {
        conn: u32,
    },
    /// The connection is lost, with what is on the way.
    Lose {
        conn: u32,
    },
    /// The caller restarts: all connections are lost, by rising name.
    Restart,
    /// The server takes a call that waits, or denies it.
    Take {
        call: u32,
    },
    /// A call that runs ends, with what becomes of its handles and the message that goes out.
    Finish {
        call: u32,
        kepts: Kepts,
        out: Message,
    },
}

/// A list of moves.
pub type Moves = Vec<Move>;
