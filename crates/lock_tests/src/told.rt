//! One store, whichever thread calls it.
ghost use Rattle.std.specs.Prelude.{◌≡◌};
ghost use Rattle.ndr_table.specs.Shown.{shown};
ghost use Rattle.desk_told.specs.Desks.{IsPassOf};

use desk_told::{DeskPass, Telling, ToldDesk};
use manager_api::{Answer, FixedDesk, Probe, has_cookies, uint_at};
use ndr_codec::{Way, decode};
use ndr_table::Table;
use rpc_base::Order;
use std::alloc::Global;
use std::sync::Wait;
use std::test::Fail;
use std::thread;
use std::thread::Threads;
use store_manager::{StoreDesk, store_table};

/// The cookie of a cursor at the begin of the first file.
const FIRST: u64 = 1 << 32;

/// The stub of an open of the file "a".
const OPEN: &[u8] = b"\x02\0\0\0\0\0\0\0\x02\0\0\0a\0";

/// The stub of an append of one octet by some cursor.
const APPEND: &[u8] =
    b"\x01\x01\x01\x01\x01\x01\x01\x01\x01\x01\x01\x01\x01\x01\x01\x01\x01\x01\x01\x01\x01\0\0\0\x01\0\0\0b";

/// The stub of the size by some view.
const SIZE: &[u8] =
    b"\x01\x01\x01\x01\x01\x01\x01\x01\x01\x01\x01\x01\x01\x01\x01\x01\x01\x01\x01\x01";

/// A probe that tells of no cancel.
#[derive(Drop)]
struct Silent;

impl Probe for Silent {
    ghost use Rattle.std.specs.Prelude.{false};

    type Key = ();

    ghost told = { λ p. false };

    ghost key = { λ p. tt };

    fn asked(&mut self) -> bool {
        false
    }
}

impl Telling for Silent {
    fn has_told(&self) -> bool {
        false
    }
}

/// Has the desk answer a call from its stub, with the cookie of its handle. None where the octets are no call of the operation.
fn ask<D: FixedDesk + Drop, R: Wait>(
    rt: &R,
    alloc: Global,
    table: &Table,
    desk: &ToldDesk<D>,
    pass: DeskPass<D>,
    op: u16,
    stub: &[u8],
    cookie: Option<u64>,
) -> (DeskPass<D>, Option<Answer>)
    requires table { shown table.now ≡ D.fixed }
    requires pass { IsPassOf D.may D.runs_down desk.now pass }
    ensures { IsPassOf D.may D.runs_down desk.now result.0 }
{
    let Some(uses) = table.handle_uses(op) else {
        return (pass, None);
    };
    if op >= table.op_count() {
        return (pass, None);
    }
    let Ok(message) = decode(alloc, table, op, Way::Request, Order::Little, None, stub) else {
        return (pass, None);
    };
    let cookies = [cookie, None, None, None];
    if !has_cookies(uses.as_slice(), message.wires.as_slice(), &cookies) {
        return (pass, None);
    }
    let (pass, answer) = desk.answer(rt, pass, 1, op, message, cookies, &mut Silent);
    (pass, Some(answer))
}

/// Appends so many octets to the first file, one by each call.
fn append<D: FixedDesk + Drop, R: Wait>(
    rt: &R,
    alloc: Global,
    table: &Table,
    desk: &ToldDesk<D>,
    mut pass: DeskPass<D>,
    count: u32,
) -> DeskPass<D>
    requires table { shown table.now ≡ D.fixed }
    requires pass { IsPassOf D.may D.runs_down desk.now pass }
    ensures { IsPassOf D.may D.runs_down desk.now result }
{
    for _ in 0..count {
        (pass, _) = ask(rt, alloc, table, desk, pass, 1, APPEND, Some(FIRST));
    }
    pass
}

fn append_both<D: FixedDesk + Drop + Send, R: Threads + Wait + Sync>(
    rt: &R,
    alloc: Global,
    table: &Table,
    desk: &ToldDesk<D>,
    mut pass: DeskPass<D>,
) -> DeskPass<D>
    requires table { shown table.now ≡ D.fixed }
    requires pass { IsPassOf D.may D.runs_down desk.now pass }
    ensures { IsPassOf D.may D.runs_down desk.now result }
{
    let other = desk.split(&mut pass);
    let (mut pass, other) = thread::join(
        rt,
        || -> DeskPass<D>
            requires table { shown table.now ≡ D.fixed }
            requires pass { IsPassOf D.may D.runs_down desk.now pass }
            ensures { IsPassOf D.may D.runs_down desk.entry.now result }
        { append(rt, alloc, table, desk, pass, 500) },
        || -> DeskPass<D>
            requires table { shown table.now ≡ D.fixed }
            requires pass { IsPassOf D.may D.runs_down desk.now other }
            ensures { IsPassOf D.may D.runs_down desk.entry.now result }
        { append(rt, alloc, table, desk, other, 500) },
    );
    desk.join(&mut pass, other);
    pass
}

/// The first file's length, where the store tells it.
fn told_size(answer: Option<Answer>) -> Option<u64> {
    match answer {
        Some(Answer::Out(message, _)) => Some(uint_at(&message, 0)),
        _ => None,
    }
}

#[test]
fn a_store_keeps_what_two_threads_append(rt: HostRuntime) -> Result<(), Fail> {
    let alloc = rt.alloc();
    let table = store_table(alloc)?;
    let (desk, pass) = ToldDesk::new(alloc, StoreDesk::new(alloc))?;
    let (pass, _) = ask(&rt, alloc, &table, &desk, pass, 0, OPEN, None);
    let pass = append_both(&rt, alloc, &table, &desk, pass);
    let (_, size) = ask(&rt, alloc, &table, &desk, pass, 5, SIZE, Some(FIRST));
    assert_eq!(rt; told_size(size), Some(1000));
    Ok(())
}
