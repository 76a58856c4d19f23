//! A bind's group.
ghost use Rattle.std.specs.Prelude.{◌≡◌, ◌≢◌};
ghost use Rattle.group_hub.specs.Passes.{IsPassOf};
ghost use Rattle.server_ends.specs.Joins as spec;
ghost use Rattle.server_ends.specs.Joins.{Joins};

use group_hub::{FindRefusal, Hub, OpenRefusal, Pass};
use std::sync::Wait;

/// Which group a connection joined, and its number there.
#[derive(Clone, Copy, Debug, PartialEq, Eq)]
pub struct Membership {
    pub group: u32,
    pub number: u32,
}

/// Want of memory, as the reason of a bind_nak: a temporary congestion (C706, "Connection-oriented RPC PDUs",
/// bind_nak).
const NO_MEMORY: u16 = 1;

/// There is no such group: no reason is told.
const NO_GROUP: u16 = 0;

/// A limit stands in the way.
const AT_LIMIT: u16 = 2;

fn by_opening(opened: Result<(u32, u32), OpenRefusal>) -> Result<Membership, u16>
    ensures { result ≡ spec.by_opening opened }
{
    match opened {
        Ok((group, number)) => Ok(Membership { group, number }),
        Err(OpenRefusal::GroupsFull | OpenRefusal::Ids) => Err(AT_LIMIT),
        Err(OpenRefusal::Memory) => Err(NO_MEMORY),
    }
}

fn by_finding(group: u32, found: Result<u32, FindRefusal>) -> Result<Membership, u16>
    ensures { result ≡ spec.by_finding group found }
{
    match found {
        Ok(number) => Ok(Membership { group, number }),
        Err(FindRefusal::NoGroup(_)) => Err(NO_GROUP),
        Err(FindRefusal::TooMany | FindRefusal::Numbers) => Err(AT_LIMIT),
        Err(FindRefusal::Memory) => Err(NO_MEMORY),
    }
}

/// A connection is the first of a new group.
fn join_new<R: Wait>(rt: &R, hub: &Hub, pass: &mut Pass, asked: u32) -> Result<Membership, u16>
    requires pass { IsPassOf hub.now pass.old }
    requires new { asked ≡ 0 }
    ensures pass { IsPassOf hub.now pass.new }
    ensures joins { Joins hub.now.boot pass.old asked result pass.new }
{
    by_opening(hub.open_group(rt, pass))
}

/// A connection joins a group that there is.
fn join_known<R: Wait>(rt: &R, hub: &Hub, pass: &mut Pass, asked: u32) -> Result<Membership, u16>
    requires pass { IsPassOf hub.now pass.old }
    requires known { asked ≢ 0 }
    ensures pass { IsPassOf hub.now pass.new }
    ensures joins { Joins hub.now.boot pass.old asked result pass.new }
{
    by_finding(asked, hub.find_join(rt, pass, asked))
}

/// A connection joins the group of an id, or where that is 0 a new one, of which it is the first.
///
/// # Errors
///
/// The reason of the bind_nak: 0 where there is no group of that id, 2 where no further group may be opened or the
/// group takes no further connection, 1 for want of memory.
pub fn join_group<R: Wait>(
    rt: &R,
    hub: &Hub,
    pass: &mut Pass,
    asked: u32,
) -> Result<Membership, u16>
    requires { IsPassOf hub.now pass.old }
    ensures pass { IsPassOf hub.now pass.new }
    ensures joins { Joins hub.now.boot pass.old asked result pass.new }
{
    if asked == 0 {
        join_new(rt, hub, pass, asked)
    } else {
        join_known(rt, hub, pass, asked)
    }
}
