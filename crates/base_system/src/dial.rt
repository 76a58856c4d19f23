//! Dials over sockets.
use crate::address::socket_address;
use crate::connection::{Connection, Patience};
use crate::link::SocketLink;
use crate::waiter::Waiter;
use mio::net::TcpStream;
use rpc_base::{Failed, OutFault};
use rpc_outside::{Address, Dial};
use std::alloc::Global;
use std::net::Net;

fn connect(net: &impl Net, alloc: Global, at: Address) -> Result<Connection, OutFault> {
    let waiter = Waiter::new(net, alloc)?;
    let Ok(stream) = TcpStream::connect(net, socket_address(at)) else {
        return Err(OutFault::Failed);
    };
    let mut connection = Connection::new(stream, waiter, Patience::Turns)?;
    match connection.wait_connected() {
        Ok(()) => Ok(connection),
        Err(Failed) => Err(OutFault::Failed),
    }
}

/// A dial over TCP sockets. It waits at most a minute for who listens at the address.
#[derive(Drop)]
pub struct SocketDial<'a, R: Net> {
    net: &'a R,
    alloc: Global,
    faults: u64,
}

impl<'a, R: Net> SocketDial<'a, R> {
    /// A dial that has called nobody yet.
    pub fn new(net: &'a R, alloc: Global) -> Self {
        SocketDial {
            net,
            alloc,
            faults: 0,
        }
    }
}

impl<R: Net> Dial for SocketDial<'_, R> {
    ghost use Rattle.base_system.specs.Sockets.{dial_shown};

    type Link = SocketLink;

    ghost shows = { λ d. dial_shown d.faults };

    fn dial(&mut self, at: Address) -> Result<SocketLink, OutFault> {
        match connect(self.net, self.alloc, at) {
            Ok(connection) => Ok(SocketLink::new(connection, None)),
            Err(OutFault::Failed) => {
                self.faults = self.faults.saturating_add(1);
                Err(OutFault::Failed)
            }
            Err(OutFault::Memory) => Err(OutFault::Memory),
        }
    }

    fn back(&mut self, link: SocketLink) {
        drop(link);
    }
}
