//! Desks behind locks.
ghost use Rattle.std.specs.Prelude.{◌≡◌, ◌<◌, true, false, length};
ghost use Rattle.ndr_value.specs.Values.{msg};
ghost use Rattle.manager_api.specs.Answers.{ans, cancelled};
ghost use Rattle.manager_api.specs.Calls.{Owes, has_cookies, uses_at};
ghost use Rattle.manager_api.specs.Messages.{IsRequest};
ghost use Rattle.desk_locks.specs.States.{InSomeState};

use handle_model::{CookieRow, Due};
use manager_api::{Answer, FixedDesk, Probe};
use ndr_value::Message;
use std::snapshot::Snapshot;
use std::sync::{Mutex, Wait};

/// A desk that any thread may call: it answers one call at a time. Nothing is known of its state but
/// what its type says.
#[derive(Drop)]
pub struct Locked<D: FixedDesk + Drop> {
    desk: Mutex<D>,
    /// The desk before the first call. It has no octets: clauses alone read it.
    pub first: Snapshot<D>,
}

impl<D: FixedDesk + Drop> Locked<D> {
    /// The desk behind a lock.
    pub fn new(desk: D) -> Locked<D>
        ensures { result.first.value ≡ desk }
    {
        Locked {
            first: Snapshot::of(&desk),
            desk: Mutex::new(desk),
        }
    }

    /// The desk, as its calls left it.
    pub fn into_inner(self) -> D {
        let Locked { desk, .. } = self;
        desk.into_inner()
    }

    /// Has the desk answer a call, once its turn comes. `iface` is the number under which its interface
    /// is served.
    pub fn answer<R: Wait, P: Probe>(
        &self,
        rt: &R,
        iface: u16,
        op: u16,
        message: Message,
        cookies: CookieRow,
        probe: &mut P,
    ) -> Answer
        requires number { op < length D.fixed.ops }
        requires request { IsRequest D.fixed op (msg message) }
        requires handles { has_cookies (uses_at D.fixed op) message.wires cookies ≡ true }
        requires untold { P.told probe.old ≡ false }
        ensures may { InSomeState D.may (record { iface = iface; op = op; message = msg message; cookies = cookies }) (P.told probe.new) (ans result) }
        ensures owes { Owes D.fixed op (msg message) (ans result) }
        // A call is answered as cancelled only where its probe told so.
        ensures told { ans result ≡ cancelled → P.told probe.new ≡ true }
        ensures key { P.key probe.new ≡ P.key probe.old }
    {
        let mut desk = self.desk.lock(rt);
        desk.call(iface, op, message, cookies, probe)
    }

    /// Runs down a handle of a group that has ended.
    pub fn run_down<R: Wait>(&self, rt: &R, due: Due) {
        let mut desk = self.desk.lock(rt);
        due.spend(&mut *desk);
    }
}
