//! One thread has the turn of a shard for long, as it copies a large journal. Another that calls in a group of
//! the next shard meanwhile isn't stopped; in a group of the same shard it is.
ghost use Rattle.std.specs.Prelude.{◌≡◌, [], length, IfOk};
ghost use Rattle.group_hub.specs.Passes.{IsPassOf};

use group_hub::{Hub, Pass};
use handle_model::Asked;
use rpc_base::{Items, NoMemory, Octets, Order};
use std::alloc::Global;
use std::rt::Clock;
use std::sync::Wait;
use std::sync::atomic::{AtomicBool, Ordering};
use std::test::Fail;
use std::thread::Threads;
use std::time::Instant;
use std::{io, thread};

/// How many octets the stub has that the journal of group 1 is large by.
const STUB: usize = 1 << 26;

/// How often the two are side by side at most.
const ROUNDS: u32 = 20;

/// How far the copy is.
#[derive(Drop)]
struct Signals {
    begun: AtomicBool,
    done: AtomicBool,
}

/// How long the calls beside a copy took, in nanoseconds: all of them, and the longest.
#[derive(Clone, Copy)]
struct Beside {
    all: u128,
    longest: u128,
}

/// Whether the calls went on while the journal was copied, in that time: none took half of it, and all of them
/// more; false where one took half of it, and none where neither is so.
fn went_on(time: u128, beside: Beside) -> Option<bool> {
    if time == 0 {
        return None;
    }
    let half = time / 2;
    if beside.longest >= half {
        return Some(false);
    }
    if beside.all > half { Some(true) } else { None }
}

/// How long ago that was, in nanoseconds; none where the clock failed.
fn passed(rt: &impl Clock, start: io::Result<Instant>) -> Option<u128> {
    let time = start.ok()?.elapsed(rt).ok()?;
    Some(time.as_nanos())
}

/// A request with a large stub.
fn request(alloc: Global, conn: u32) -> Result<Asked, NoMemory>
    ensures { IfOk result (λ asked. (asked.conn ≡ conn) × (asked.slots ≡ [])) }
{
    Ok(Asked {
        conn,
        iface: 0,
        op: 0,
        order: Order::Little,
        reply: true,
        slots: Items::new(alloc),
        stub: Octets::from_vec(vec![in alloc; 0; STUB]?),
    })
}

/// Opens the first group, whose journal then has a large stub: whether there was memory for it.
fn open_large<R: Wait>(rt: &R, hub: &Hub, pass: &mut Pass, alloc: Global) -> bool
    requires { IsPassOf hub.now pass.old }
    ensures { IsPassOf hub.now pass.new }
{
    let Ok((group, conn)) = hub.open_group(rt, pass) else {
        return false;
    };
    let Ok(asked) = request(alloc, conn) else {
        return false;
    };
    group == 1 && hub.accept(rt, pass, group, asked).is_ok()
}

/// The journal of group 1 is copied: how long that took, in nanoseconds; 0 where it can't be told.
fn copy<R: Wait + Clock>(rt: &R, hub: &Hub, pass: Pass, signals: &Signals) -> (Pass, u128)
    requires { IsPassOf hub.now pass }
    ensures { IsPassOf hub.now result.0 }
{
    let mut pass = pass;
    signals.begun.store(true, Ordering::SeqCst);
    let start = Instant::now(rt);
    let copy = hub.journal(rt, &mut pass, 1);
    let time = passed(rt, start);
    signals.done.store(true, Ordering::SeqCst);
    match copy {
        Ok(Some(_)) => (pass, time.unwrap_or(0)),
        Ok(None) | Err(_) => (pass, 0),
    }
}

/// Connections join a group, one after the other, until the copy is done.
fn call_beside<R: Wait + Clock>(
    rt: &R,
    hub: &Hub,
    pass: Pass,
    group: u32,
    signals: &Signals,
) -> (Pass, Beside)
    requires { IsPassOf hub.now pass }
    ensures { IsPassOf hub.now result.0 }
{
    let mut pass = pass;
    let mut beside = Beside { all: 0, longest: 0 };
    for _ in rt.forever() {
        if signals.done.load(Ordering::SeqCst) {
            break;
        }
        if !signals.begun.load(Ordering::SeqCst) {
            thread::yield_now();
            continue;
        }
        let start = Instant::now(rt);
        let _ = hub.find_join(rt, &mut pass, group.max(1));
        let time = passed(rt, start).unwrap_or(0);
        beside = Beside {
            all: beside.all.saturating_add(time),
            longest: beside.longest.max(time),
        };
    }
    (pass, beside)
}

/// The two side by side, once: whether the calls went on.
fn side_by_side<R: Threads + Wait + Clock + Sync>(
    rt: &R,
    hub: &Hub,
    pass: Pass,
    other: Pass,
    group: u32,
) -> (Pass, Pass, Option<bool>)
    requires { IsPassOf hub.now pass × IsPassOf hub.now other }
    ensures { IsPassOf hub.now result.0 × IsPassOf hub.now result.1 }
{
    let signals = Signals {
        begun: AtomicBool::new(false),
        done: AtomicBool::new(false),
    };
    let ((pass, time), (other, beside)) = thread::join(
        rt,
        || -> (Pass, u128)
            requires { IsPassOf hub.now pass }
            ensures { IsPassOf hub.entry.now result.0 }
        { copy(rt, hub, pass, &signals) },
        || -> (Pass, Beside)
            requires { IsPassOf hub.now other }
            ensures { IsPassOf hub.entry.now result.0 }
        { call_beside(rt, hub, other, group, &signals) },
    );
    (pass, other, went_on(time, beside))
}

/// Whether that was once so as wanted.
fn was_once<R: Threads + Wait + Clock + Sync>(
    rt: &R,
    hub: &Hub,
    pass: Pass,
    other: Pass,
    group: u32,
    wanted: bool,
) -> bool
    requires { IsPassOf hub.now pass × IsPassOf hub.now other }
{
    let mut pass = pass;
    let mut other = other;
    for _ in 0..ROUNDS {
        let (one, two, was) = side_by_side(rt, hub, pass, other, group);
        if was == Some(wanted) {
            return true;
        }
        pass = one;
        other = two;
    }
    false
}

/// Opens so many groups: whether there was room for them.
fn open_more<R: Wait>(rt: &R, hub: &Hub, pass: &mut Pass, count: u32) -> bool
    requires { IsPassOf hub.now pass.old }
    ensures { IsPassOf hub.now pass.new }
{
    for _ in 0..count {
        if hub.open_group(rt, pass).is_err() {
            return false;
        }
    }
    true
}

/// Group 1 has a large journal, and calls are made in the group that is opened behind so many others: its id,
/// and whether they once went on or were stopped, as wanted, while that journal was copied.
fn behind<R: Threads + Wait + Clock + Sync>(
    rt: &R,
    alloc: Global,
    between: u32,
    wanted: bool,
) -> Option<(u32, bool)> {
    let (hub, mut pass) = Hub::new(alloc, 1).ok()?;
    if !open_large(rt, &hub, &mut pass, alloc) || !open_more(rt, &hub, &mut pass, between) {
        return None;
    }
    let mut other = hub.split(&mut pass);
    let (group, _) = hub.open_group(rt, &mut other).ok()?;
    let was = was_once(rt, &hub, pass, other, group, wanted);
    Some((group, was))
}

#[test]
fn a_turn_at_one_shard_stops_no_call_at_the_next(rt: HostRuntime) -> Result<(), Fail> {
    assert_eq!(rt; behind(&rt, rt.alloc(), 0, true), Some((2, true)));
    Ok(())
}

#[test]
fn a_turn_stops_calls_at_its_own_shard(rt: HostRuntime) -> Result<(), Fail> {
    assert_eq!(rt; behind(&rt, rt.alloc(), 15, false), Some((17, true)));
    Ok(())
}
