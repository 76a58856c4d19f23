//! The server's end.
ghost use Rattle.std.specs.Prelude.{◌≡◌, ◌≤◌, ◌^◌, [], length, None, IfOk, OnOk};
ghost use Rattle.conn_histories.specs.Histories.Event.{Came};
ghost use Rattle.world_laws.specs.Ends.{Line, new_server};

use conn_core::Conn;
use rpc_base::{NoMemory, Status, SyntaxId};
use std::alloc::Global;

/// What waits for the server's word.
#[derive(Clone, Copy, Debug)]
pub enum Waiting {
    Nothing,
    /// A bind, which asks for the group of that id.
    Bind(u32),
    /// A request that is refused.
    Refused(Status),
    /// An accepted call.
    Call(u32),
}

/// A connection of a server: its state, its number in the group, what waits for the server's word, of each call that came its number
/// where it was accepted, and the octets on the way to the caller.
#[derive(Drop)]
pub struct Serving {
    pub(crate) conn: Conn,
    pub member: Option<u32>,
    pub waiting: Waiting,
    pub numbers: Vec<Option<u32>>,
    pub down: Vec<u8>,
}

impl Serving {
    ghost use Rattle.world_ends.specs.Servings.{IsServing, Comes};

    /// A new connection to a server of these interfaces.
    ///
    /// # Errors
    ///
    /// `NoMemory` where there is no memory for it.
    pub fn open(alloc: Global, ids: &[SyntaxId]) -> Result<Serving, NoMemory>
        requires { length ids.now ≤ 2 ^ 16 }
        ensures { IfOk result (λ s. (l : Line) → l.server ≡ new_server ids.now → l.down ≡ [] → IsServing s l) }
    {
        Ok(Serving {
            conn: Conn::new(alloc, ids)?,
            member: None,
            waiting: Waiting::Nothing,
            numbers: Vec::new(alloc),
            down: Vec::new(alloc),
        })
    }

    /// Octets come, which may end anywhere.
    ///
    /// # Errors
    ///
    /// `NoMemory` where there is no memory for them.
    pub fn come(&mut self, octets: &[u8]) -> Result<(), NoMemory>
        ensures { OnOk result (Comes octets.now self.old self.new) }
    {
        self.conn.feed(octets)
    }
}
