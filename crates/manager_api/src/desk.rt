//! Desks.
ghost use Rattle.std.specs.Prelude.{◌≡◌, ◌<◌, Bool, true, false, length};
ghost use Rattle.ndr_value.specs.Values.{msg};
ghost use Rattle.ndr_table.specs.Tables.{TableForm};
ghost use Rattle.manager_api.specs.Answers.{Ans, ans, cancelled};
ghost use Rattle.manager_api.specs.Calls.{Call, Owes, has_cookies, uses_at};
ghost use Rattle.manager_api.specs.Messages.{IsRequest};

use crate::answer::Answer;
use crate::probe::Probe;
use handle_model::{CookieRow, Rundown};
use ndr_value::Message;

/// What answers the calls of an interface, one after another. A desk is seen by contracts as its
/// state.
pub trait Desk: Rundown {
    /// The table of the interface that it serves.
    ghost table: { Self → TableForm };

    /// What it was, a call, whether the call's probe told of a cancel, the answer, and what it then
    /// is.
    ghost may: { Self → Call → Bool → Ans → Self → Type 0 };

    /// Answers a call. `iface` is the number under which the interface is served.
    fn call<P: Probe>(
        &mut self,
        iface: u16,
        op: u16,
        message: Message,
        cookies: CookieRow,
        probe: &mut P,
    ) -> Answer
        requires number { op < length (table self.old).ops }
        requires request { IsRequest (table self.old) op (msg message) }
        requires handles { has_cookies (uses_at (table self.old) op) message.wires cookies ≡ true }
        requires untold { P.told probe.old ≡ false }
        ensures may { may self.old (record { iface = iface; op = op; message = msg message; cookies = cookies }) (P.told probe.new) (ans result) self.new }
        ensures owes { Owes (table self.old) op (msg message) (ans result) }
        // A call is answered as cancelled only where its probe told so.
        ensures told { ans result ≡ cancelled → P.told probe.new ≡ true }
        ensures table { table self.new ≡ table self.old }
        ensures key { P.key probe.new ≡ P.key probe.old };
}

/// A desk whose type alone names the interface that it serves.
pub trait FixedDesk: Desk {
    /// The table of that interface.
    ghost fixed: { TableForm };

    /// Each desk of the type serves it.
    ghost serves: { (desk : Self) → Self.table desk ≡ fixed };
}
