//! One thread has the turn of a shard while another calls at the next one, and is done first.
ghost use Rattle.std.specs.Prelude.{◌≡◌, [], IfOk};
ghost use Rattle.group_hub.specs.Locks.{IsPassOf};

use group_hub::{ShardLock, ShardPass};
use handle_model::Asked;
use hub_shard::{Act, Shard};
use rpc_base::{Items, Octets, Order};
use std::alloc::Global;
use std::sync::Wait;
use std::sync::atomic::{AtomicBool, Ordering};
use std::test::Fail;
use std::thread;
use std::thread::Threads;

/// How far two threads are.
#[derive(Drop)]
pub struct Signals {
    /// One has the turn.
    entered: AtomicBool,
    /// The other is done.
    done: AtomicBool,
}

fn await_set<R: Wait>(rt: &R, flag: &AtomicBool) {
    for _ in rt.forever() {
        if flag.load(Ordering::SeqCst) {
            break;
        }
        thread::yield_now();
    }
}

/// The turn is kept until the other thread is done.
#[derive(Drop)]
pub struct KeepTurn<'a, R> {
    rt: &'a R,
    signals: &'a Signals,
}

impl<'a, R: Wait> Act for KeepTurn<'a, R> {
    ghost use Rattle.std.specs.Prelude.{◌≡◌, []};

    type Answer = bool;

    ghost asks = { λ _ _ _. Unit {0} };

    ghost gives = { λ _ _ _ _ _ more. more ≡ [] };

    /// Whether the other thread was not done before.
    fn act(self, _shard: &mut Shard) -> (bool, u64) {
        let first = !self.signals.done.load(Ordering::SeqCst);
        self.signals.entered.store(true, Ordering::SeqCst);
        await_set(self.rt, &self.signals.done);
        (first, 0)
    }
}

fn keep_turn<R: Wait>(
    rt: &R,
    lock: &ShardLock,
    pass: ShardPass,
    signals: &Signals,
) -> (ShardPass, bool)
    requires { IsPassOf lock.now pass }
    ensures { IsPassOf lock.now result.0 }
{
    let mut pass = pass;
    let first = lock.run::<KeepTurn<'_, R>, R>(rt, &mut pass, KeepTurn { rt, signals });
    (pass, first)
}

fn request(alloc: Global, conn: u32) -> Asked
    ensures conn { result.conn ≡ conn }
    ensures no_slots { result.slots ≡ [] }
{
    Asked {
        conn,
        iface: 0,
        op: 0,
        order: Order::Little,
        reply: true,
        slots: Items::new(alloc),
        stub: Octets::new(alloc),
    }
}

/// A group is opened once the other thread has the turn of its own shard, and a call is accepted there.
fn call_beside<R: Wait>(
    rt: &R,
    lock: &ShardLock,
    pass: ShardPass,
    alloc: Global,
    signals: &Signals,
) -> (ShardPass, Option<u32>)
    requires { IsPassOf lock.now pass }
    ensures { IsPassOf lock.now result.0 }
{
    let mut pass = pass;
    await_set(rt, &signals.entered);
    let called = match lock.open_next(rt, &mut pass) {
        Ok(id) => {
            let asked = request(alloc, 1);
            lock.accept(rt, &mut pass, id, asked).ok()
        }
        Err(_) => None,
    };
    signals.done.store(true, Ordering::SeqCst);
    (pass, called)
}

fn side_by_side<R: Threads + Wait + Sync>(
    rt: &R,
    alloc: Global,
    one: &ShardLock,
    held: ShardPass,
    other: &ShardLock,
    beside: ShardPass,
) -> ((ShardPass, bool), (ShardPass, Option<u32>))
    requires { IsPassOf one.now held × IsPassOf other.now beside }
    ensures { IsPassOf one.now result.0.0 × IsPassOf other.now result.1.0 }
{
    let signals = Signals {
        entered: AtomicBool::new(false),
        done: AtomicBool::new(false),
    };
    thread::join(
        rt,
        || -> (ShardPass, bool)
            requires { IsPassOf one.now held }
            ensures { IsPassOf one.entry.now result.0 }
        { keep_turn(rt, one, held, &signals) },
        || -> (ShardPass, Option<u32>)
            requires { IsPassOf other.now beside }
            ensures { IsPassOf other.entry.now result.0 }
        { call_beside(rt, other, beside, alloc, &signals) },
    )
}

#[test]
fn a_turn_at_one_shard_stops_nobody_at_the_next(rt: HostRuntime) -> Result<(), Fail> {
    let alloc = rt.alloc();
    let (one, first) = ShardLock::new(alloc, 1, 0)?;
    let (other, second) = ShardLock::new(alloc, 1, 1)?;
    let ((mut first, kept), (_, called)) = side_by_side(&rt, alloc, &one, first, &other, second);
    let opened = one.open_next(&rt, &mut first);
    assert_eq!(rt; (kept, called, opened), (true, Some(1), Ok(1)));
    Ok(())
}
