//! A service that threads share.
ghost use Rattle.std.specs.Prelude.{◌≡◌, ◌<◌, length};
ghost use Rattle.ndr_value.specs.Values.{msg};
ghost use Rattle.ndr_table.specs.Shown.{shown};
ghost use Rattle.manager_api.specs.Answers.{ans, cancelled};
ghost use Rattle.manager_api.specs.Calls.{Owes};
ghost use Rattle.desk_text.specs.Played.{InSomeState};

use crate::played::play;
use desk_steps::Steps;
use desk_told::Telling;
use handle_model::{CookieRow, Due};
use manager_api::Answer;
use ndr_table::Table;
use ndr_value::Message;
use server_calls::Manager;
use std::alloc::Global;
use std::sync::{Mutex, Wait};

/// The longest stub, in octets, of a call that runs in its connection's own thread.
const BRIEF: usize = 65536;

/// An interface's table, and what serves it, behind a lock: any thread may call it, and it answers one call at a time.
#[derive(Drop)]
pub struct TextService<S: Steps + Drop> {
    alloc: Global,
    table: Table,
    state: Mutex<S>,
}

impl<S: Steps + Drop> TextService<S> {
    /// One that serves the interface of that table. It takes no memory.
    pub fn new(alloc: Global, table: Table, state: S) -> TextService<S>
        ensures { result.table ≡ table }
    {
        TextService {
            alloc,
            table,
            state: Mutex::new(state),
        }
    }

    /// The table.
    pub fn table(&self) -> &Table
        ensures { result.now ≡ self.now.table }
    {
        &self.table
    }

    /// Answers a call, once its turn comes. `iface` is the number under which the interface is served.
    #[tactic(auto, using(crate::proofs::Suiting::follows_owe, crate::proofs::Suiting::follows_uncancelled))]
    pub fn answer<R: Wait>(
        &self,
        rt: &R,
        iface: u16,
        op: u16,
        message: &Message,
        cookies: &CookieRow,
    ) -> Answer
        requires { op < length (shown self.now.table).ops }
        ensures may { InSomeState (shown self.now.table) S.step (record { iface = iface; op = op; message = msg message.now; cookies = cookies.now }) (ans result) }
        ensures owes { Owes (shown self.now.table) op (msg message.now) (ans result) }
        ensures uncancelled { ans result ≡ cancelled → ⊥ }
    {
        let mut state = self.state.lock(rt);
        play(
            self.alloc,
            &self.table,
            &mut *state,
            iface,
            op,
            message,
            cookies,
        )
    }

    /// Runs down a handle of a group that has ended.
    pub fn run_down<R: Wait>(&self, rt: &R, due: Due) {
        let mut state = self.state.lock(rt);
        due.spend(&mut *state);
    }
}

/// It serves its interface alone, under number 0.
impl<S: Steps + Drop> Manager for TextService<S> {
    ghost use Rattle.std.specs.Prelude.{[], ◌∷◌};
    ghost use Rattle.ndr_table.specs.Shown.{shown};
    ghost use Rattle.desk_text.specs.Played.{InSomeState};

    ghost tables = { λ service. shown service.table ∷ [] };

    ghost may = { λ service call told answer. InSomeState (shown service.table) S.step call answer };

    // Its lock tells no history.
    type Pass = ();

    ghost is_pass = { λ service pass. Unit {0} };

    ghost enters = { λ service before call told answer after. Unit {0} };

    ghost runs_down = { λ service before item after. Unit {0} };

    ghost splits = { λ service before kept other. Unit {0} };

    ghost joins = { λ service before other after. Unit {0} };

    fn call<R: Wait, P: Telling>(
        &self,
        rt: &R,
        _pass: (),
        iface: u16,
        op: u16,
        message: Message,
        cookies: CookieRow,
        _probe: &mut P,
    ) -> ((), Answer) {
        ((), self.answer(rt, iface, op, &message, &cookies))
    }

    fn is_brief(&self, _iface: u16, _op: u16, stub: usize) -> bool {
        stub <= BRIEF
    }

    fn rundown<R: Wait>(&self, rt: &R, _pass: (), due: Due) {
        self.run_down(rt, due);
    }

    fn split(&self, _pass: &mut ()) {}

    fn join(&self, _pass: &mut (), _other: ()) {}
}
