//! Two threads that look for a group which isn't open.
ghost use Rattle.group_hub.specs.Passes.{IsPassOf};

use group_hub::{Absence, FindRefusal, Hub, Pass};
use std::sync::Wait;
use std::test::Fail;
use std::thread;
use std::thread::Threads;

/// Looks so often for a group that isn't open.
fn look<R: Wait>(rt: &R, hub: &Hub, pass: Pass, id: u32, count: u32) -> Pass
    requires { IsPassOf hub.now pass }
    ensures { IsPassOf hub.now result }
{
    let mut pass = pass;
    for _ in 0..count {
        let _ = hub.find_join(rt, &mut pass, id.max(1));
    }
    pass
}

fn look_in_two<R: Threads + Wait + Sync>(rt: &R, hub: &Hub, pass: Pass) -> Pass
    requires { IsPassOf hub.now pass }
    ensures { IsPassOf hub.now result }
{
    let mut pass = pass;
    let other = hub.split(&mut pass);
    let (mut pass, other) = thread::join(
        rt,
        || -> Pass
            requires { IsPassOf hub.now pass }
            ensures { IsPassOf hub.entry.now result }
        { look(rt, hub, pass, 17, 1000) },
        || -> Pass
            requires { IsPassOf hub.now other }
            ensures { IsPassOf hub.entry.now result }
        { look(rt, hub, other, 17, 1000) },
    );
    hub.join(&mut pass, other);
    pass
}

#[test]
fn two_threads_look_a_thousand_times_each(rt: HostRuntime) -> Result<(), Fail> {
    let (hub, pass) = Hub::new(rt.alloc(), 1)?;
    let mut pass = look_in_two(&rt, &hub, pass);
    let missed = hub.find_join(&rt, &mut pass, 17);
    assert_eq!(rt; missed, Err(FindRefusal::NoGroup(Absence::Directory(2000))));
    Ok(())
}
