//! Requests.
ghost use Rattle.std.specs.Prelude.{◌≡◌, IfOk};
ghost use Rattle.conn_histories.specs.Entries.{asked_as as asked_as_spec};
ghost use Rattle.server_calls.specs.Suited.{Opened};
ghost use Rattle.world_server.specs.Requests.{Requests, request};
ghost use Rattle.world_server.specs.Servers.{seen, IsWhole, Goes};

use crate::Server;
use handle_model::{Asked, Slots};
use pdu_stream::Joined;
use rpc_base::{NoMemory, Status};
use server_calls::slots_of;

/// A request as it is accepted of a connection.
fn asked_as(conn: u32, joined: Joined, iface: u16, slots: Slots) -> Asked
    ensures { result ≡ asked_as_spec conn (request joined iface) slots }
{
    Asked {
        conn,
        iface,
        op: joined.op,
        order: joined.order,
        reply: !joined.maybe,
        slots,
        stub: joined.stub,
    }
}

impl Server {
    /// A request of a connection is accepted as a call, with that number; or it is refused with a status, by its operation, its
    /// stub or a limit of the group.
    ///
    /// # Errors
    ///
    /// `NoMemory` where there is no memory for the call, or the connection isn't open.
    pub fn request(
        &mut self,
        conn: u32,
        joined: Joined,
        iface: u16,
    ) -> Result<Result<u32, Status>, NoMemory>
        requires { IsWhole (seen self.old) }
        ensures { IfOk result (λ answer. Goes (seen self.old) (Requests (seen self.old).tables conn joined iface answer) (seen self.new)) }
    {
        let stub = joined.stub.as_slice();
        match slots_of(
            self.alloc,
            &self.served,
            iface,
            joined.op,
            joined.order,
            stub,
        ) {
            Err(status) => {
                if status == Status::NCA_S_FAULT_REMOTE_NO_MEMORY {
                    Err(NoMemory)
                } else {
                    Ok(Err(status))
                }
            }
            Ok(slots) => self.accept_as(conn, joined, iface, slots),
        }
    }

    fn accept_as(
        &mut self,
        conn: u32,
        joined: Joined,
        iface: u16,
        slots: Slots,
    ) -> Result<Result<u32, Status>, NoMemory>
        requires is_whole { IsWhole (seen self.old) }
        requires opened { Opened (seen self.old).tables iface joined.op joined.order joined.stub slots }
        ensures { IfOk result (λ answer. Goes (seen self.old) (Requests (seen self.old).tables conn joined iface answer) (seen self.new)) }
    {
        if !self.is_open(conn) {
            return Err(NoMemory);
        }
        let accepted = self.accept(asked_as(conn, joined, iface, slots))?;
        match accepted {
            Some(call) => Ok(Ok(call)),
            None => Ok(Err(Status::NCA_S_SERVER_TOO_BUSY)),
        }
    }
}
