//! Which connections are woken when a call is over.
ghost use Rattle.std.specs.Prelude.{◌≡◌, []};
ghost use Rattle.group_hub.specs.Shards.{shard_of};
ghost use Rattle.server_ends.specs.Owning.{Grown};
ghost use Rattle.server_steps.specs.Lines.{IsSame};
ghost use Rattle.server_steps.specs.Calls.{IsWaiting};

use crate::line::Line;
use group_hub::Hub;
use handle_model::Asked;
use rpc_outside::Link;
use server_calls::Manager;
use std::sync::Wait;

/// For whose end the link of a waiting call listens.
#[derive(Clone, Copy, Debug, PartialEq, Eq)]
pub struct Listening {
    /// The last of the calls in its way, none where there was none.
    pub call: Option<u32>,
    /// Whether the link can listen.
    pub listens: bool,
}

impl Listening {
    /// For none yet.
    pub fn nothing() -> Listening {
        Listening {
            call: None,
            listens: false,
        }
    }
}

/// The number that is rung when a call is over. Two calls of one group have two numbers; calls of two groups may share one,
/// which wakes a connection in vain.
pub fn turn_of(group: u32, call: u32) -> u32 {
    group.wrapping_mul(2_654_435_769).wrapping_add(call)
}

/// Wakes the connections whose calls wait for a call that is over, where one is.
pub fn ring_over<R: Wait, K: Link>(rt: &R, link: &K, group: u32, call: Option<u32>) {
    if let Some(call) = call {
        link.ring(rt, turn_of(group, call));
    }
}

impl<K: Link> Line<K> {
    /// Has the link listen for the end of the last call that stands in the way of a waiting one, where it doesn't do so yet.
    /// What ends between the look and the listening is seen at the next look.
    pub fn listen_ahead<R: Wait, M: Manager>(
        &mut self,
        rt: &R,
        hub: &Hub,
        _manager: &M,
        call: u32,
        _asked: &Asked,
        before: Listening,
    ) -> Listening
        requires { IsWaiting K.shows (M.may _manager.now) (M.tables _manager.now) hub.now self.old call _asked.now }
        ensures same { IsSame self.old self.new }
        ensures group { self.new.group ≡ self.old.group }
        ensures nothing { Grown (shard_of self.old.group) self.old.pass self.new.pass [] }
        ensures waits { IsWaiting K.shows (M.may _manager.now) (M.tables _manager.now) hub.now self.new call _asked.now }
    {
        let last = hub.last_in_way(rt, &mut self.pass, self.group, call);
        listen_for(rt, &self.wire.link, self.group, last, before)
    }
}

/// What a link listens for once that call is the last in the way.
fn listen_for<R: Wait, K: Link>(
    rt: &R,
    link: &K,
    group: u32,
    last: Option<u32>,
    before: Listening,
) -> Listening {
    if last == before.call {
        return before;
    }
    let listens = match last {
        Some(other) => link.listen(rt, turn_of(group, other)),
        None => before.listens,
    };
    Listening {
        call: last,
        listens,
    }
}
