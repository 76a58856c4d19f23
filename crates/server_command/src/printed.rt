//! What the command puts on the outputs.
use rpc_base::Octets;

/// What is put on the outputs, and the status.
#[derive(Drop)]
pub struct Printed {
    /// A line for each connection, and behind them the numbers of calls and packets.
    pub out: Octets,
    /// The journals of the groups, by rising id.
    pub log: Octets,
    /// 0 where each connection ended behind a whole PDU, 8 where one didn't, 5 where memory ran out, 7 where the door failed.
    pub status: u8,
}
