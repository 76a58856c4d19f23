//! Addresses as the system takes them.
use rpc_outside::Address;
use std::net::{Ipv4Addr, SocketAddr};

/// The same address.
pub(crate) fn socket_address(at: Address) -> SocketAddr {
    SocketAddr::from((Ipv4Addr::from(at.ip), at.port))
}
