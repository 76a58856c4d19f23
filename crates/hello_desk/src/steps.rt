//! The operations.
ghost use Rattle.std.specs.Prelude.{◌≡◌, IfOk};
ghost use Rattle.manager_api.specs.Answers.{ans};
ghost use Rattle.hello_desk.specs.Steps as spec;

use crate::room::Hello;
use desk_steps::Steps;
use handle_model::{CookieRow, DueItem, Rundown};
use manager_api::{Answer, Kept, handle_and_status, uint_at};
use ndr_value::Message;
use rpc_base::NoMemory;
use std::alloc::Global;

/// The number of hello_enter, which is the first operation of the text.
const ENTER: u16 = 0;

/// The status of hello_enter where so many guests have no room.
const NO_ROOM: u32 = 1;

// hello_enter: the cookie is how many guests came in.
fn entering(room: &Hello, alloc: Global, guests: u64) -> Result<Answer, NoMemory>
    ensures { IfOk result (λ a. ans a ≡ spec.entering room.now guests) }
{
    if room.has_room(guests) {
        handle_and_status(alloc, Kept::Cookie(guests), 0)
    } else {
        handle_and_status(alloc, Kept::Null, NO_ROOM)
    }
}

// hello_leave: the handle is closed.
fn leaving(alloc: Global) -> Result<Answer, NoMemory>
    ensures { IfOk result (λ a. ans a ≡ spec.leaving) }
{
    handle_and_status(alloc, Kept::Null, 0)
}

impl Rundown for Hello {
    ghost use Rattle.std.specs.Prelude.{◌≡◌};
    ghost use Rattle.hello_desk.specs.Steps.{left};

    ghost runs_down = { λ before item after. after ≡ left before item.cookie };

    fn rundown(&mut self, item: DueItem) {
        self.leave(item.cookie);
    }
}

impl Steps for Hello {
    ghost use Rattle.hello_desk.specs.Steps.{hello_step};

    ghost step = { λ room call. hello_step room call };

    fn answer(
        &self,
        alloc: Global,
        _iface: u16,
        op: u16,
        message: &Message,
        _cookies: &CookieRow,
    ) -> Result<Answer, NoMemory> {
        if op == ENTER {
            entering(self, alloc, uint_at(message, 0))
        } else {
            leaving(alloc)
        }
    }

    fn keep(
        &mut self,
        _iface: u16,
        op: u16,
        message: &Message,
        cookies: &CookieRow,
    ) -> Result<(), NoMemory> {
        if op == ENTER {
            self.enter(uint_at(message, 0));
        } else if let Some(guests) = cookies[0] {
            self.leave(guests);
        }
        Ok(())
    }
}
