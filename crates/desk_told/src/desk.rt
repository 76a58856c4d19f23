//! A desk behind a turn lock.
ghost use Rattle.std.specs.Prelude.{◌≡◌, ◌<◌, ◌++◌, ◌∷◌, [], true, false, length, IfOk};
ghost use Rattle.turn_lock.specs.Histories.{StartsWith};
ghost use Rattle.turn_lock.specs.Passes.{own};
ghost use Rattle.ndr_value.specs.Values.{msg};
ghost use Rattle.manager_api.specs.Answers.{ans, cancelled};
ghost use Rattle.manager_api.specs.Calls.{Owes, has_cookies, uses_at};
ghost use Rattle.manager_api.specs.Messages.{IsRequest};
ghost use Rattle.desk_told.specs.Deeds.{began, called, ran_down};
ghost use Rattle.desk_told.specs.Desks.{IsPassOf, Does};
ghost use Rattle.desk_told.specs.Laws.{Compare};
ghost use Rattle.desk_told.specs.Passes.{history};

use crate::deed::{Deed, Telling};
use crate::state::DeskState;
use handle_model::{CookieRow, Due};
use manager_api::{Answer, FixedDesk};
use ndr_value::Message;
use rpc_base::NoMemory;
use std::alloc::Global;
use std::snapshot::Snapshot;
use std::sync::Wait;
use turn_lock::{Pass, TurnLock};

/// A thread's part in a desk's history: what it has seen of it, and which deeds it had done. It has no octets.
pub type DeskPass<D> = Pass<DeskState<D>>;

/// A desk that any thread may call. It does one deed at a time, and its history tells them all.
#[derive(Drop)]
pub struct ToldDesk<D: FixedDesk + Drop> {
    pub(crate) lock: TurnLock<DeskState<D>>,
    /// The desk before its first deed. It has no octets: clauses alone read it.
    pub first: Snapshot<D>,
}

impl<D: FixedDesk + Drop> ToldDesk<D> {
    /// The desk behind a lock, and its first pass. Its history says how it began, and nothing else.
    ///
    /// # Errors
    ///
    /// `NoMemory` where there is no memory for the lock.
    pub fn new(alloc: Global, desk: D) -> Result<(ToldDesk<D>, DeskPass<D>), NoMemory>
        ensures first { IfOk result (λ made. made.0.first.value ≡ desk) }
        ensures pass { IfOk result (λ made. IsPassOf D.may D.runs_down made.0 made.1) }
        ensures empty { IfOk result (λ made. (history made.1 ≡ began desk ∷ []) × (own made.1 ≡ [])) }
    {
        let first = Snapshot::of(&desk);
        let start = Deed::Began(Snapshot::of(&desk));
        let (lock, pass) = TurnLock::new(alloc, DeskState::new(desk), &start)?;
        Ok((ToldDesk { lock, first }, pass))
    }

    /// Has the desk answer a call, once its turn comes. `iface` is the number under which its interface is served. It
    /// takes no memory but the desk's own.
    pub fn answer<R: Wait, P: Telling>(
        &self,
        rt: &R,
        pass: DeskPass<D>,
        iface: u16,
        op: u16,
        message: Message,
        cookies: CookieRow,
        probe: &mut P,
    ) -> (DeskPass<D>, Answer)
        requires pass { IsPassOf D.may D.runs_down self.now pass }
        requires number { op < length D.fixed.ops }
        requires request { IsRequest D.fixed op (msg message) }
        requires handles { has_cookies (uses_at D.fixed op) message.wires cookies ≡ true }
        requires untold { P.told probe.old ≡ false }
        ensures pass { IsPassOf D.may D.runs_down self.now result.0 }
        ensures may { Does D.may D.runs_down self.now pass (called (record { iface = iface; op = op; message = msg message; cookies = cookies }) (P.told probe.new) (ans result.1)) result.0 }
        ensures owes { Owes D.fixed op (msg message) (ans result.1) }
        // A call is answered as cancelled only where its probe told so.
        ensures told { ans result.1 ≡ cancelled → P.told probe.new ≡ true }
        ensures key { P.key probe.new ≡ P.key probe.old }
    {
        let mut held = self.lock.enter(rt, pass);
        let answer = held.value().answer(iface, op, message, cookies, probe);
        held.commit(1);
        (held.exit(), answer)
    }

    /// Runs down a handle of a group that has ended. It takes no memory but the desk's own.
    pub fn run_down<R: Wait>(&self, rt: &R, pass: DeskPass<D>, due: Due) -> DeskPass<D>
        requires pass { IsPassOf D.may D.runs_down self.now pass }
        ensures pass { IsPassOf D.may D.runs_down self.now result }
        ensures done { Does D.may D.runs_down self.now pass (ran_down due) result }
    {
        let mut held = self.lock.enter(rt, pass);
        held.value().run_down(due);
        held.commit(1);
        held.exit()
    }

    /// Another pass, for another thread. It has seen as much, and has no deeds of its own.
    pub fn split(&self, pass: &mut DeskPass<D>) -> DeskPass<D>
        requires pass { IsPassOf D.may D.runs_down self.now pass.old }
        ensures kept { IsPassOf D.may D.runs_down self.now pass.new }
        ensures same { (history pass.new ≡ history pass.old) × (own pass.new ≡ own pass.old) }
        ensures other { IsPassOf D.may D.runs_down self.now result }
        ensures fresh { (history result ≡ history pass.old) × (own result ≡ []) }
    {
        self.lock.split(pass)
    }

    /// Takes in another pass. The pass has then seen what both had seen, and has the deeds of both.
    pub fn join(&self, pass: &mut DeskPass<D>, other: DeskPass<D>)
        requires pass { IsPassOf D.may D.runs_down self.now pass.old }
        requires other { IsPassOf D.may D.runs_down self.now other }
        ensures pass { IsPassOf D.may D.runs_down self.now pass.new }
        ensures seen { StartsWith (history pass.new) (history pass.old) × StartsWith (history pass.new) (history other) }
        ensures own { own pass.new ≡ own pass.old ++ own other }
    {
        self.lock.join(pass, other);
    }

    /// Any two passes have seen beginnings of one history.
    pub fn compare(&self, one: &mut DeskPass<D>, other: &mut DeskPass<D>)
        requires one { IsPassOf D.may D.runs_down self.now one.old }
        requires other { IsPassOf D.may D.runs_down self.now other.old }
        ensures one { (history one.new ≡ history one.old) × (own one.new ≡ own one.old) }
        ensures other { (history other.new ≡ history other.old) × (own other.new ≡ own other.old) }
        ensures compare { Compare (history one.old) (history other.old) }
    {
        let mut all = self.split(one);
        let theirs = self.split(other);
        self.join(&mut all, theirs);
    }
}
