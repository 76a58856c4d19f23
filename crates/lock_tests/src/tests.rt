//! One history, whoever enters it.
ghost use Rattle.turn_lock.specs.Passes.{IsPassOf};

use crate::register::{Mark, Register, count_marks, enter_mark};
use std::alloc::Global;
use std::sync::Wait;
use std::test::Fail;
use std::thread;
use std::thread::Threads;
use turn_lock::{Pass, TurnLock};

/// Enters the marks of a thread from 0 on.
fn enter_marks<R: Wait>(
    rt: &R,
    lock: &TurnLock<Register>,
    mut pass: Pass<Register>,
    by: u32,
    count: u32,
) -> Pass<Register>
    requires { IsPassOf lock.now.table.shared.table_id pass }
    ensures { IsPassOf lock.now.table.shared.table_id result }
{
    for number in 0..count {
        (pass, _) = enter_mark(rt, lock, pass, Mark { by, number });
    }
    pass
}

fn enter_both<R: Threads + Wait + Sync>(
    rt: &R,
    lock: &TurnLock<Register>,
    mut pass: Pass<Register>,
) -> Pass<Register>
    requires { IsPassOf lock.now.table.shared.table_id pass }
    ensures { IsPassOf lock.now.table.shared.table_id result }
{
    let other = lock.split(&mut pass);
    let (mut pass, other) = thread::join(
        rt,
        || -> Pass<Register>
            requires { IsPassOf lock.now.table.shared.table_id pass }
            ensures { IsPassOf lock.entry.now.table.shared.table_id result }
        { enter_marks(rt, lock, pass, 1, 1000) },
        || -> Pass<Register>
            requires { IsPassOf lock.now.table.shared.table_id other }
            ensures { IsPassOf lock.entry.now.table.shared.table_id result }
        { enter_marks(rt, lock, other, 2, 1000) },
    );
    lock.join(&mut pass, other);
    pass
}

#[test]
fn a_pass_enters_each_mark_once(rt: HostRuntime) -> Result<(), Fail> {
    let alloc = rt.alloc();
    let (lock, pass) = TurnLock::new(alloc, Register::new(alloc), &())?;
    let pass = enter_marks(&rt, &lock, pass, 7, 3);
    let (pass, count) = count_marks(&rt, &lock, pass, 7);
    let (_, others) = count_marks(&rt, &lock, pass, 8);
    assert_eq!(rt; (count, others), (Some(3), Some(0)));
    Ok(())
}

#[test]
fn two_threads_enter_each_mark_once(rt: HostRuntime) -> Result<(), Fail> {
    let alloc = rt.alloc();
    let (lock, pass) = TurnLock::new(alloc, Register::new(alloc), &())?;
    let pass = enter_both(&rt, &lock, pass);
    let (pass, first) = count_marks(&rt, &lock, pass, 1);
    let (_, second) = count_marks(&rt, &lock, pass, 2);
    assert_eq!(rt; (first, second), (Some(1000), Some(1000)));
    Ok(())
}
