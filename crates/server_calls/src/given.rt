//! What a desk is given, and what its answer gives.
ghost use Rattle.std.specs.Prelude.{◌≡◌, ◌≤◌, ℕ, List, Option, true, length};
ghost use Rattle.handle_model.specs.Journal.{suit};
ghost use Rattle.ndr_value.specs.Values.{msg};
ghost use Rattle.manager_api.specs.Answers.{ans};
ghost use Rattle.manager_api.specs.Arguments.{cookie_at as cookie_at_spec};
ghost use Rattle.conn_histories.specs.Requests.{HasSlots, IsAsked};
ghost use Rattle.conn_histories.specs.Ends.{call_with, results_of, row_of};
ghost use Rattle.manager_api.specs.ServedCalls.{IsCall, Owed};
ghost use Rattle.manager_api.specs.Served.{tables_in};
ghost use Rattle.server_calls.specs.Suited as spec;

use handle_model::{Asked, CookieRow, Slot};
use manager_api::{Answer, Served};
use ndr_laws::one_message;
use ndr_value::Message;

/// Whether these are cookies for the slots: one for each, which is there exactly where the slot names a
/// handle.
pub fn suit_cookies(slots: &[Slot], cookies: &[Option<u64>]) -> bool
    ensures { result ≡ spec.suit_cookies slots.now cookies.now }
{
    match (slots.split_first(), cookies.split_first()) {
        (None, None) => true,
        (Some((slot, slots)), Some((cookie, cookies))) => {
            cookie.is_some() != slot.opens() && suit_cookies(slots, cookies)
        }
        _ => false,
    }
}

fn cookie_at(cookies: &[Option<u64>], at: usize) -> Option<u64>
    ensures { result ≡ cookie_at_spec cookies.now at }
{
    match cookies.get(at) {
        Some(cookie) => *cookie,
        None => None,
    }
}

// The first four cookies, with empty places behind them where there are fewer.
fn row(cookies: &[Option<u64>]) -> CookieRow
    ensures { result ≡ row_of cookies.now }
{
    [
        cookie_at(cookies, 0),
        cookie_at(cookies, 1),
        cookie_at(cookies, 2),
        cookie_at(cookies, 3),
    ]
}

/// The cookies of so many slots, from a row of four.
pub fn first_cookies(row: &CookieRow, count: usize) -> &[Option<u64>]
    requires { count ≤ 4 }
    ensures { (cookies : List (Option ℕ)) → row.now ≡ row_of cookies → length cookies ≡ count → result.now ≡ cookies }
{
    &row[..count]
}

// The call is one of an interface that is served.
fn is_call(served: &Served, asked: &Asked, stub: &[u8], message: &Message, cookies: &[Option<u64>])
    requires stub { stub.now ≡ asked.now.stub }
    requires slots { HasSlots (tables_in served.now) asked.now.iface asked.now.op asked.now.order asked.now.stub asked.now.slots }
    requires few { length asked.now.slots ≤ 4 }
    requires cookies { spec.suit_cookies asked.now.slots cookies.now ≡ true }
    requires asked { IsAsked (tables_in served.now) asked.now.iface asked.now.op asked.now.order asked.now.stub (msg message.now) }
    ensures { IsCall (tables_in served.now) (call_with asked.now (msg message.now) cookies.now) }
{
    let Some(table) = served.table(asked.iface) else {
        unreachable!()
    };
    table.is_whole();
    table.is_shallow();
    table.is_sound();
    one_message();
}

/// A call has one message.
pub fn same_message(served: &Served, asked: &Asked, first: &Message, second: &Message)
    requires first { IsAsked (tables_in served.now) asked.now.iface asked.now.op asked.now.order asked.now.stub (msg first.now) }
    requires second { IsAsked (tables_in served.now) asked.now.iface asked.now.op asked.now.order asked.now.stub (msg second.now) }
    ensures { msg first.now ≡ msg second.now }
{
    let Some(table) = served.table(asked.iface) else {
        unreachable!()
    };
    table.is_whole();
    table.is_shallow();
    one_message();
}

/// The cookies of a call's slots as its desk is given them, in a row of four. With them and the message
/// the call is one that the desk of its interface may be given.
pub fn row_for(
    served: &Served,
    asked: &Asked,
    message: &Message,
    cookies: &[Option<u64>],
) -> CookieRow
    requires slots { HasSlots (tables_in served.now) asked.now.iface asked.now.op asked.now.order asked.now.stub asked.now.slots }
    requires few { length asked.now.slots ≤ 4 }
    requires cookies { spec.suit_cookies asked.now.slots cookies.now ≡ true }
    requires asked { IsAsked (tables_in served.now) asked.now.iface asked.now.op asked.now.order asked.now.stub (msg message.now) }
    ensures row { result ≡ row_of cookies.now }
    ensures call { IsCall (tables_in served.now) (call_with asked.now (msg message.now) cookies.now) }
{
    is_call(served, asked, asked.stub.as_slice(), message, cookies);
    row(cookies)
}

/// What becomes of the handles suits the call's slots.
pub(crate) fn kepts_suit(
    served: &Served,
    asked: &Asked,
    stub: &[u8],
    message: &Message,
    cookies: &[Option<u64>],
    answer: &Answer,
)
    requires stub { stub.now ≡ asked.now.stub }
    requires slots { HasSlots (tables_in served.now) asked.now.iface asked.now.op asked.now.order asked.now.stub asked.now.slots }
    requires cookies { spec.suit_cookies asked.now.slots cookies.now ≡ true }
    requires asked { IsAsked (tables_in served.now) asked.now.iface asked.now.op asked.now.order asked.now.stub (msg message.now) }
    requires owes { Owed (tables_in served.now) (call_with asked.now (msg message.now) cookies.now) (ans answer.now) }
    ensures { suit asked.now.slots (results_of asked.now.slots cookies.now (ans answer.now)) ≡ true }
{
    let Some(table) = served.table(asked.iface) else {
        unreachable!()
    };
    table.is_whole();
    table.is_shallow();
    table.is_sound();
    one_message();
}
