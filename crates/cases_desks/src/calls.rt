//! Calls on the desks from their stubs.
ghost use Rattle.std.specs.Prelude.{◌≡◌, ◌<◌, ◌||◌, true, Some, length, slice_get};
ghost use Rattle.ndr_value.specs.Values.{msg};
ghost use Rattle.ndr_table.specs.Shown.{shown};
ghost use Rattle.manager_api.specs.Calls.{has_cookies as has_cookies_spec, uses_at};
ghost use Rattle.manager_api.specs.Messages.{IsRequest};
ghost use Rattle.manager_api.specs.ServedCalls.{IsCall};
ghost use Rattle.desk_service.specs.State.{tables_of};
ghost use Rattle.desk_service.specs.Views.{services};

use base_words::{put, put_decimal, put_hex, put_hex_u32};
use desk_counts::Counted;
use desk_service::ServiceDesks;
use handle_model::CookieRow;
use manager_api::{Answer, Kept, Kepts, Probe, has_cookies};
use ndr_codec::{Way, decode, encode};
use ndr_table::Table;
use ndr_value::Message;
use rpc_base::{NoMemory, Order, Status};
use std::alloc::Global;

/// Whether a call was cancelled, and who knows.
#[derive(Clone, Copy, PartialEq, Eq)]
pub enum Cancel {
    No,
    /// The probe tells so.
    Told,
    /// It is known before.
    Marked,
}

/// A request from its octets.
#[derive(Clone, Copy)]
pub struct Request<'a> {
    pub iface: u16,
    pub op: u16,
    /// Its stub, little-endian.
    pub stub: &'a [u8],
    /// That of its first handle, where the group has it.
    pub cookie: Option<u64>,
    pub cancel: Cancel,
    /// The numbers of calls in, packets in and packets out so far.
    pub numbers: [u32; 3],
}

/// What a request comes to.
#[derive(Drop)]
pub enum Answered {
    /// There is no such operation, the octets are no stub of it, or the group has other handles.
    NoCall,
    Fault(Status),
    /// The response's octets, and what becomes of the handles.
    Out(Vec<u8>, Kepts),
}

/// A probe that tells of a cancel.
#[derive(Drop)]
struct Teller {
    told: bool,
}

impl Probe for Teller {
    type Key = ();

    ghost told = { λ p. p.told };

    ghost key = { λ p. tt };

    fn asked(&mut self) -> bool {
        self.told = true;
        true
    }
}

fn counted(numbers: [u32; 3]) -> Counted {
    let [calls, packets_in, packets_out] = numbers;
    let mut counted = Counted::new();
    counted.add(calls, packets_in, packets_out);
    counted
}

// The response's octets.
fn encoded(
    alloc: Global,
    table: &Table,
    op: u16,
    asked: &Message,
    response: &Message,
) -> Result<Vec<u8>, NoMemory>
    requires { op < length (shown table.now).ops }
{
    let mut stub = Vec::new(alloc);
    let (way, order) = (Way::Response, Order::Little);
    match encode(table, op, way, order, Some(asked), response, &mut stub) {
        Ok(()) => Ok(stub),
        Err(_) => Err(NoMemory),
    }
}

// An operation of the interface, a message of its request and cookies for its handles make a call.
fn is_call(
    desks: &ServiceDesks,
    table: &Table,
    iface: u16,
    op: u16,
    message: &Message,
    cookies: &CookieRow,
)
    requires served { slice_get (tables_of (services desks.now)) iface ≡ Some (shown table.now) }
    requires number { op < length (shown table.now).ops }
    requires request { IsRequest (shown table.now) op (msg message.now) }
    requires handles { has_cookies_spec (uses_at (shown table.now) op) message.now.wires cookies.now ≡ true }
    ensures { IsCall (tables_of (services desks.now)) (record { iface = iface; op = op; message = msg message.now; cookies = cookies.now }) }
{}

// What the desk of the interface answers.
fn call_on(
    alloc: Global,
    desks: &mut ServiceDesks,
    table: &Table,
    request: &Request<'_>,
) -> Result<Answered, NoMemory>
    requires { slice_get (tables_of (services desks.old)) request.now.iface ≡ Some (shown table.now) }
{
    let (iface, op) = (request.iface, request.op);
    let Some(uses) = table.handle_uses(op) else {
        return Ok(Answered::NoCall);
    };
    if op >= table.op_count() {
        return Ok(Answered::NoCall);
    }
    let (way, order) = (Way::Request, Order::Little);
    let Ok(asked) = decode(alloc, table, op, way, order, None, request.stub) else {
        return Ok(Answered::NoCall);
    };
    let Ok(message) = decode(alloc, table, op, way, order, None, request.stub) else {
        return Ok(Answered::NoCall);
    };
    let cookies = [request.cookie, None, None, None];
    if !has_cookies(uses.as_slice(), message.wires.as_slice(), &cookies) {
        return Ok(Answered::NoCall);
    }
    is_call(desks, table, iface, op, &message, &cookies);
    let numbers = counted(request.numbers);
    let answer = match request.cancel {
        Cancel::Told => {
            let mut probe = Teller { told: false };
            desks.call(iface, op, message, cookies, &mut probe, numbers)
        }
        cancel => desks.answer(
            iface,
            op,
            message,
            cookies,
            cancel == Cancel::Marked,
            numbers,
        ),
    };
    match answer {
        Answer::Fault(status) => Ok(Answered::Fault(status)),
        Answer::Out(response, kepts) => {
            let stub = encoded(alloc, table, op, &asked, &response)?;
            Ok(Answered::Out(stub, kepts))
        }
    }
}

/// What the desk of the interface answers to a request.
pub fn answer_to(
    alloc: Global,
    desks: &mut ServiceDesks,
    request: &Request<'_>,
) -> Result<Answered, NoMemory> {
    let served = desks.tables(alloc)?;
    match served.table(request.iface) {
        None => Ok(Answered::NoCall),
        Some(table) => call_on(alloc, desks, table, request),
    }
}

fn put_kept(alloc: Global, kept: Kept, into: &mut Vec<u8>) -> Result<(), NoMemory> {
    match kept {
        Kept::Stays => put(b" stays", into),
        Kept::Null => put(b" null", into),
        Kept::Cookie(cookie) => {
            put(b" ", into)?;
            put_decimal(alloc, cookie, into)
        }
    }
}

/// Adds the text of what a request came to, in the form of a row's answer whose octets are one word.
pub fn put_answered(
    alloc: Global,
    answered: &Answered,
    into: &mut Vec<u8>,
) -> Result<(), NoMemory> {
    match answered {
        Answered::NoCall => put(b"no call", into),
        Answered::Fault(status) => {
            put(b"fault ", into)?;
            put_hex_u32(alloc, status.0, into)
        }
        Answered::Out(stub, kepts) => {
            put_hex(alloc, stub.as_slice(), into)?;
            put(b";", into)?;
            for kept in kepts.as_slice() {
                put_kept(alloc, *kept, into)?;
            }
            Ok(())
        }
    }
}

/// A probe that tells of no cancel.
#[derive(Drop)]
pub struct Silent;

impl Probe for Silent {
    ghost use Rattle.std.specs.Prelude.{false};

    type Key = ();

    ghost told = { λ p. false };

    ghost key = { λ p. tt };

    fn asked(&mut self) -> bool {
        false
    }
}
