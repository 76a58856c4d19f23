//! What the acts of a connection mean to the group.
ghost use Rattle.std.specs.Prelude.{◌≡◌, ◌∷◌, [], ℕ, List, IfOk, OnOk};
ghost use Rattle.conn_asks.specs.declared.events.Act.TheVariants as acts;
ghost use Rattle.conn_asks.specs.declared.events.ConnFault.{ConnFault as ConnFaultSpec};
ghost use Rattle.conn_histories.specs.Histories.{put};
ghost use Rattle.world_laws.specs.Ends.{Line};
ghost use Rattle.world_laws.specs.Serving.{ActMeans, CancelsMarked};
ghost use Rattle.world_server.specs.Servers.{seen, IsWhole, Goes};
ghost use Rattle.world_ends.specs.Servings.{IsServing, Lives, Means, Left, event_of};

use crate::{Serving, Waiting};
use conn_core::Act;
use pdu_stream::Joined;
use rpc_base::NoMemory;
use world_server::Server;

/// The octets that an act answers.
fn octets_of(act: &Option<Act>) -> &[u8]
    ensures { result.now ≡ put (event_of act.now ∷ []) }
{
    match act {
        Some(Act::Answer(octets)) => octets.as_slice(),
        Some(Act::Close(octets, _)) => octets.as_slice(),
        _ => &[],
    }
}

impl Serving {
    /// The next act, before the group knows of it. None where nothing is to be done for now.
    pub(crate) fn next(&mut self) -> Result<Option<Act>, NoMemory>
        ensures { IfOk result (λ act. (l : Line) → IsServing self.old l → Lives (event_of act) self.new l) }
    {
        let act = self.conn.next()?;
        self.down.extend_from_slice(octets_of(&act))?;
        Ok(act)
    }

    /// What the act means to the group.
    pub(crate) fn act(&mut self, server: &mut Server, act: Act) -> Result<(), NoMemory>
        requires { IsWhole (seen server.old) }
        ensures { OnOk result (Means (λ past e f new. ActMeans (seen server.old).tables past e act f new) (seen server.old) self.old (seen server.new) self.new) }
    {
        match act {
            Act::Answer(_) => {
                self.numbers.push(None)?;
                Ok(())
            }
            Act::Group(asked) => {
                self.waiting = Waiting::Bind(asked);
                Ok(())
            }
            Act::Call(joined, iface) => self.request(server, joined, iface),
            Act::Cancel(_) => self.cancel(server),
            Act::Orphan(_) => self.orphan(server),
            Act::Close(_, _) => self.close(server),
        }
    }

    /// A request is refused, or is accepted as a call.
    fn request(&mut self, server: &mut Server, joined: Joined, iface: u16) -> Result<(), NoMemory>
        requires { IsWhole (seen server.old) }
        ensures { OnOk result (Means (λ past e f new. ActMeans (seen server.old).tables past e (acts.Call joined iface) f new) (seen server.old) self.old (seen server.new) self.new) }
    {
        let Some(member) = self.member else {
            return Err(NoMemory);
        };
        let marked = joined.cancel;
        match server.request(member, joined, iface)? {
            Err(status) => {
                self.numbers.push(None)?;
                self.waiting = Waiting::Refused(status);
                Ok(())
            }
            Ok(call) => {
                self.numbers.push(Some(call))?;
                self.waiting = Waiting::Call(call);
                mark(server, marked, call)
            }
        }
    }

    /// The call that is unanswered is cancelled.
    fn cancel(&mut self, server: &mut Server) -> Result<(), NoMemory>
        requires { IsWhole (seen server.old) }
        ensures { OnOk result ((id : ℕ) → Means (λ past e f new. ActMeans (seen server.old).tables past e (acts.Cancel id) f new) (seen server.old) self.old (seen server.new) self.new) }
    {
        let Waiting::Call(call) = self.waiting else {
            return Err(NoMemory);
        };
        server.cancel(call)?;
        Ok(())
    }

    /// The call that is unanswered is orphaned.
    fn orphan(&mut self, server: &mut Server) -> Result<(), NoMemory>
        requires { IsWhole (seen server.old) }
        ensures { OnOk result ((id : ℕ) → Means (λ past e f new. ActMeans (seen server.old).tables past e (acts.Orphan id) f new) (seen server.old) self.old (seen server.new) self.new) }
    {
        let Waiting::Call(call) = self.waiting else {
            return Err(NoMemory);
        };
        server.orphan(call)?;
        Ok(())
    }

    /// The connection is closed: it leaves the group, if it joined.
    fn close(&mut self, server: &mut Server) -> Result<(), NoMemory>
        requires { IsWhole (seen server.old) }
        ensures { OnOk result ((octets : List ℕ) (why : ConnFaultSpec)
            → Means (λ past e f new. ActMeans (seen server.old).tables past e (acts.Close octets why) f new) (seen server.old) self.old (seen server.new) self.new) }
    {
        leave(server, self.member)?;
        self.waiting = Waiting::Nothing;
        self.member = None;
        Ok(())
    }

    /// The connection is lost: it leaves the group, if it joined. What is on the way is gone.
    ///
    /// # Errors
    ///
    /// `NoMemory` where there is no memory for the entries.
    pub fn lose(&mut self, server: &mut Server) -> Result<(), NoMemory>
        requires { IsWhole (seen server.old) }
        ensures left { OnOk result (Left self.old.member (seen server.old) (seen server.new)) }
        ensures same { OnOk result (self.new ≡ record self.old { down = self.new.down }) }
        ensures gone { OnOk result (self.new.down.items ≡ []) }
    {
        leave(server, self.member)?;
        self.down.clear();
        Ok(())
    }
}

/// A call whose request was marked so is cancelled.
fn mark(server: &mut Server, marked: bool, call: u32) -> Result<(), NoMemory>
    requires { IsWhole (seen server.old) }
    ensures { OnOk result (Goes (seen server.old) (λ past new. CancelsMarked marked past call new) (seen server.new)) }
{
    if marked {
        server.cancel(call)?;
    }
    Ok(())
}

/// A connection leaves the group, if it joined.
fn leave(server: &mut Server, member: Option<u32>) -> Result<(), NoMemory>
    requires { IsWhole (seen server.old) }
    ensures { OnOk result (Left member (seen server.old) (seen server.new)) }
{
    match member {
        None => Ok(()),
        Some(conn) => {
            if server.is_open(conn) {
                server.leave(conn)
            } else {
                Err(NoMemory)
            }
        }
    }
}
