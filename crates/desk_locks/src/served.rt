//! A desk as the one manager of a server.
use crate::BRIEF;
use crate::locked::Locked;
use desk_told::Telling;
use handle_model::{CookieRow, Due};
use manager_api::{Answer, FixedDesk};
use ndr_value::Message;
use server_calls::Manager;
use std::sync::Wait;

/// It serves its desk's interface alone, under number 0.
impl<D: FixedDesk + Drop> Manager for Locked<D> {
    ghost use Rattle.std.specs.Prelude.{[], ◌∷◌};
    ghost use Rattle.desk_locks.specs.States.{InSomeState};

    ghost tables = { λ l. D.fixed ∷ [] };

    // Its lock tells no history.
    type Pass = ();

    ghost is_pass = { λ l pass. Unit {0} };

    ghost may = { λ l call told answer. InSomeState D.may call told answer };

    ghost enters = { λ l before call told answer after. Unit {0} };

    ghost runs_down = { λ l before item after. Unit {0} };

    ghost splits = { λ l before kept other. Unit {0} };

    ghost joins = { λ l before other after. Unit {0} };

    fn call<R: Wait, P: Telling>(
        &self,
        rt: &R,
        _pass: (),
        iface: u16,
        op: u16,
        message: Message,
        cookies: CookieRow,
        probe: &mut P,
    ) -> ((), Answer) {
        ((), self.answer(rt, iface, op, message, cookies, probe))
    }

    fn is_brief(&self, _iface: u16, _op: u16, stub: usize) -> bool {
        stub <= BRIEF
    }

    fn rundown<R: Wait>(&self, rt: &R, _pass: (), due: Due) {
        self.run_down(rt, due);
    }

    fn split(&self, _pass: &mut ()) {}

    fn join(&self, _pass: &mut (), _other: ()) {}
}
