//! Binds.
ghost use Rattle.std.specs.Prelude.{◌≡◌, ◌≢◌};
ghost use Rattle.replay_groups.specs.Keeps.{GoesOn, Has};
ghost use Rattle.replay_groups.specs.Binds.{AreKept, Binds};
ghost use Rattle.replay_groups.specs.Binds as spec;

use crate::asks::goes_on;
use crate::{Groups, OpenRefusal};
use group_core::JoinRefusal;
use replay_world::Member;

/// Why a bind is refused.
#[derive(Clone, Copy, Debug, PartialEq, Eq)]
pub enum BindRefusal {
    /// The reason of its bind_nak.
    Refused(u16),
    /// There is no memory.
    Memory,
}

/// A limit is reached, of the groups or of one.
const AT_LIMIT: u16 = 2;

/// There is no such group.
const NO_GROUP: u16 = 0;

/// A connection binds and asks for the group of an id, or with 0 for a new one: it is a member of that group then.
///
/// # Errors
///
/// `Refused` with the reason 2 where 1,024 groups are open, no id is left, or the group takes no further connection; with 0
/// where no such group is open. `Memory` where memory ran out.
pub fn bind(groups: &mut Groups, asked: u32) -> Result<Member, BindRefusal>
    requires { AreKept groups.old }
    ensures binds { Binds groups.old asked result groups.new }
    ensures kept { AreKept groups.new }
{
    bind_to(groups, asked)
}

fn bind_to(groups: &mut Groups, asked: u32) -> Result<Member, BindRefusal>
    requires { AreKept groups.old }
    ensures { Binds groups.old asked result groups.new }
{
    if asked == 0 {
        bind_new(groups, asked)
    } else {
        bind_known(groups, asked)
    }
}

fn bind_new(groups: &mut Groups, asked: u32) -> Result<Member, BindRefusal>
    requires { asked ≡ 0 }
    ensures { Binds groups.old asked result groups.new }
{
    by_opening(groups.open_next())
}

fn bind_known(groups: &mut Groups, asked: u32) -> Result<Member, BindRefusal>
    requires kept { AreKept groups.old }
    requires known { asked ≢ 0 }
    ensures { Binds groups.old asked result groups.new }
{
    if goes_on(groups, asked) {
        join(groups, asked)
    } else {
        Err(BindRefusal::Refused(NO_GROUP))
    }
}

/// Of a group that goes on.
fn join(groups: &mut Groups, asked: u32) -> Result<Member, BindRefusal>
    requires there { Has groups.old asked }
    requires goes_on { GoesOn groups.old asked }
    ensures { Binds groups.old asked result groups.new }
{
    by_joining(asked, groups.join(asked))
}

fn by_opening(opened: Result<u32, OpenRefusal>) -> Result<Member, BindRefusal>
    ensures { result ≡ spec.by_opening opened }
{
    match opened {
        Ok(group) => Ok(Member { group, number: 1 }),
        Err(OpenRefusal::Full) => Err(BindRefusal::Refused(AT_LIMIT)),
        Err(OpenRefusal::Memory) => Err(BindRefusal::Memory),
    }
}

fn by_joining(group: u32, joined: Result<u32, JoinRefusal>) -> Result<Member, BindRefusal>
    ensures { result ≡ spec.by_joining group joined }
{
    match joined {
        Ok(number) => Ok(Member { group, number }),
        Err(JoinRefusal::TooMany | JoinRefusal::Numbers) => Err(BindRefusal::Refused(AT_LIMIT)),
        Err(JoinRefusal::Memory) => Err(BindRefusal::Memory),
    }
}
