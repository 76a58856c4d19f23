//! Towers.
use rpc_base::SyntaxId;

/// How a server's interface is reached: the interface and the transfer syntax, the minor version of
/// the RPC protocol, and the port and address at which the server listens (C706, "Protocol Tower
/// Encoding").
#[derive(Clone, Copy, Debug, PartialEq, Eq)]
pub struct Tower {
    pub iface: SyntaxId,
    pub transfer: SyntaxId,
    pub minor: u16,
    pub port: u16,
    pub ip: [u8; 4],
}

/// How many octets a tower has.
pub const TOWER_SIZE: usize = 75;

/// The protocol identifiers that begin the floors (C706, "Protocol Identifiers").
pub mod protocols {
    /// A UUID, with its major version after it.
    pub const UUID: u8 = 0x0D;
    /// Connection-oriented RPC.
    pub const RPC: u8 = 0x0B;
    /// A TCP port.
    pub const TCP: u8 = 0x07;
    /// An IP address.
    pub const IP: u8 = 0x09;
}
