//! Managers.
ghost use Rattle.std.specs.Prelude.{◌≡◌, Bool, true, false, List};
ghost use Rattle.ndr_value.specs.Values.{msg};
ghost use Rattle.ndr_table.specs.Tables.{TableForm};
ghost use Rattle.manager_api.specs.Answers.{Ans, ans, cancelled};
ghost use Rattle.manager_api.specs.Calls.{Call};
ghost use Rattle.manager_api.specs.ServedCalls.{IsCall, Owed};
ghost use Rattle.handle_model.specs.declared.entry.DueItem.{DueItem};

use desk_told::Telling;
use handle_model::{CookieRow, Due};
use manager_api::Answer;
use ndr_value::Message;
use std::sync::Wait;

/// What answers the calls of a server's interfaces, those of many connections at once.
pub trait Manager {
    /// The tables of the interfaces that it serves, by number.
    ghost tables: { Self → List TableForm };

    /// A thread's part in what the manager does: what it has seen of that, and what it had done. It has no octets.
    type Pass: Send + Drop;

    /// A pass of the manager.
    ghost is_pass: { Self → Self.Pass → Type 0 };

    /// A call, whether its probe told of a cancel, and an answer that it may give.
    ghost may: { Self → Call → Bool → Ans → Type 0 };

    /// What a pass was, a call that it had answered, whether the call's probe told of a cancel, the answer, and what the pass
    /// then is.
    ghost enters: { Self → Self.Pass → Call → Bool → Ans → Self.Pass → Type 0 };

    /// What a pass was, a handle that it had run down, and what the pass then is.
    ghost runs_down: { Self → Self.Pass → DueItem → Self.Pass → Type 0 };

    /// What a pass was, what it is once another was made from it, and that one.
    ghost splits: { Self → Self.Pass → Self.Pass → Self.Pass → Type 0 };

    /// What a pass was, another that it took in, and what it then is.
    ghost joins: { Self → Self.Pass → Self.Pass → Self.Pass → Type 0 };

    /// Answers a call. `iface` is the number under which the interface is served.
    fn call<R: Wait, P: Telling>(
        &self,
        rt: &R,
        pass: Self::Pass,
        iface: u16,
        op: u16,
        message: Message,
        cookies: CookieRow,
        probe: &mut P,
    ) -> (Self::Pass, Answer)
        requires pass { is_pass self.now pass }
        requires call { IsCall (tables self.now) (record { iface = iface; op = op; message = msg message; cookies = cookies }) }
        requires untold { P.told probe.old ≡ false }
        ensures pass { is_pass self.now result.0 }
        ensures may { may self.now (record { iface = iface; op = op; message = msg message; cookies = cookies }) (P.told probe.new) (ans result.1) }
        ensures enters { enters self.now pass (record { iface = iface; op = op; message = msg message; cookies = cookies }) (P.told probe.new) (ans result.1) result.0 }
        ensures owes { Owed (tables self.now) (record { iface = iface; op = op; message = msg message; cookies = cookies }) (ans result.1) }
        // A call is answered as cancelled only where its probe told so.
        ensures told { ans result.1 ≡ cancelled → P.told probe.new ≡ true }
        ensures key { P.key probe.new ≡ P.key probe.old };

    /// Whether a call of an operation, with a stub of that many octets, surely ends so soon that a cancel could hardly come
    /// meanwhile. Such a call runs in its connection's thread, and any other in a thread beside it.
    fn is_brief(&self, iface: u16, op: u16, stub: usize) -> bool;

    /// Runs down a handle of a group that has ended. It takes no memory.
    fn rundown<R: Wait>(&self, rt: &R, pass: Self::Pass, due: Due) -> Self::Pass
        requires { is_pass self.now pass }
        ensures pass { is_pass self.now result }
        ensures runs_down { runs_down self.now pass due result };

    /// Another pass, for another thread, which had nothing done so far. It takes no memory.
    fn split(&self, pass: &mut Self::Pass) -> Self::Pass
        requires { is_pass self.now pass.old }
        ensures kept { is_pass self.now pass.new }
        ensures other { is_pass self.now result }
        ensures splits { splits self.now pass.old pass.new result };

    /// Takes in another pass: what that one had done is then this one's. It takes no memory.
    fn join(&self, pass: &mut Self::Pass, other: Self::Pass)
        requires pass { is_pass self.now pass.old }
        requires other { is_pass self.now other }
        ensures pass { is_pass self.now pass.new }
        ensures joins { joins self.now pass.old other pass.new };
}
