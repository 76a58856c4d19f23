//! A group that two connections join and leave, and what a third is told of it.
ghost use Rattle.group_hub.specs.Passes.{IsPassOf, HasItsShut};

use group_hub::{Absence, FindRefusal, Hub, HubRest, Pass};
use handle_model::{DueItem, DueList, Rundown};
use std::sync::Wait;
use std::test::Fail;

/// Runs nothing down: what is kept behind a handle is a number.
#[derive(Drop)]
struct Forget;

impl Rundown for Forget {
    ghost use Rattle.handle_model.specs.declared.entry.DueItem.{DueItem};

    ghost runs_down = { λ _ _ _. Unit {0} };

    fn rundown(&mut self, _item: DueItem) {}
}

fn run_down(list: DueList) {
    let mut list = list;
    while let Some(due) = list.take_first() {
        due.spend(&mut Forget);
    }
    list.finish();
}

/// What a third connection is told of a group that has ended: before it is retired, and after.
type Told = (Result<u32, FindRefusal>, Result<u32, FindRefusal>);

/// A connection has left, and the group is retired where it has ended.
fn retire<R: Wait>(
    rt: &R,
    hub: &Hub,
    rest: HubRest,
    pass: &mut Pass,
    third: &mut Pass,
) -> Option<Told>
    requires passes { IsPassOf hub.now pass.old × IsPassOf hub.now third.old }
    requires shut { HasItsShut pass.old rest }
    ensures { IsPassOf hub.now pass.new × IsPassOf hub.now third.new }
{
    match rest {
        HubRest::Stays => None,
        HubRest::Shut(list, key) => {
            let group = key.group().max(1);
            let before = hub.find_join(rt, third, group);
            run_down(list);
            let _ = hub.retire(rt, pass, key);
            let after = hub.find_join(rt, third, group);
            Some((before, after))
        }
    }
}

/// One pass opens a group, a second joins it, and both leave: what a third is told where the group has ended only then.
fn live<R: Wait>(
    rt: &R,
    hub: &Hub,
    first: &mut Pass,
    second: &mut Pass,
    third: &mut Pass,
) -> Option<Told>
    requires { IsPassOf hub.now first.old × IsPassOf hub.now second.old × IsPassOf hub.now third.old }
    ensures { IsPassOf hub.now first.new × IsPassOf hub.now second.new × IsPassOf hub.now third.new }
{
    let Ok((group, conn)) = hub.open_group(rt, first) else {
        return None;
    };
    if group == 0 {
        return None;
    }
    let Ok(joined) = hub.find_join(rt, second, group) else {
        return None;
    };
    let rest = hub.leave(rt, first, group, conn);
    if retire(rt, hub, rest, first, third).is_some() {
        return None;
    }
    let rest = hub.leave(rt, second, group, joined);
    retire(rt, hub, rest, second, third)
}

#[test]
fn a_group_lives_and_is_retired(rt: HostRuntime) -> Result<(), Fail> {
    let (hub, mut first) = Hub::new(rt.alloc(), 1)?;
    let mut second = hub.split(&mut first);
    let mut third = hub.split(&mut first);
    let told = live(&rt, &hub, &mut first, &mut second, &mut third);
    assert_eq!(rt;
        told,
        Some((
            Err(FindRefusal::NoGroup(Absence::Shut(5))),
            Err(FindRefusal::NoGroup(Absence::Directory(2))),
        ))
    );
    Ok(())
}
