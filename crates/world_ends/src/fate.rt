//! What a caller knows of a call.

use ndr_value::Message;
use rpc_base::Status;

/// What a caller knows of a call that it started.
#[derive(Debug, Drop)]
pub enum Fate {
    /// Nothing yet. Of a call that wants no answer it stays so.
    Open,
    /// It is done, and this is its response.
    Done(Message),
    /// It failed.
    Fault {
        status: Status,
        /// The server says that it never ran, so it may be made again.
        not_run: bool,
    },
    /// Its connection was lost while it was out: it ran once or never.
    Lost,
}
