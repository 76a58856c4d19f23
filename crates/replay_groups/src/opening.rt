//! A group is opened.
ghost use Rattle.std.specs.Prelude.{◌≡◌, ◌+◌, ◌<◌, ◌++◌, ◌∷◌, [], IfOk, OnOk, OnErr};
ghost use Rattle.replay_script.specs.Counting.{AddsGroup};
ghost use Rattle.replay_groups.specs.Keeps.{IsFirst, OpensAt, Opens, home_in};

use crate::groups::Groups;
use group_core::Group;
use rpc_base::NoMemory;
use std::alloc::Global;

/// Why no further group is opened.
#[derive(Clone, Copy, Debug, PartialEq, Eq)]
pub enum OpenRefusal {
    /// 1,024 groups are open, or no id is left.
    Full,
    /// There is no memory.
    Memory,
}

/// How many groups may be open.
const MOST_GROUPS: usize = 1024;

/// A new group, which its first connection has joined.
fn first_joined(alloc: Global, boot: u64, id: u32) -> Result<Group, NoMemory>
    ensures { IfOk result (λ j. IsFirst (home_in boot id) j) }
{
    let mut group = Group::begin(alloc, boot, id)?;
    match group.join() {
        Ok(_) => {}
        Err(_) => return Err(NoMemory),
    }
    let _ = group.journal();
    Ok(group)
}

impl Groups {
    /// Opens the group of the next id, which its first connection has joined, and answers the id. It is refused where so many
    /// are open, or no id is left.
    ///
    /// # Errors
    ///
    /// `Full` where 1,024 groups are open or no id is left, and `Memory` where there is no memory
    /// for the group.
    pub fn open_next(&mut self) -> Result<u32, OpenRefusal>
        ensures { Opens self.old result self.new }
    {
        self.open_at_end()
    }

    fn open_at_end(&mut self) -> Result<u32, OpenRefusal>
        ensures { OpensAt self.old result self.new }
    {
        if self.open_groups >= MOST_GROUPS {
            return Err(OpenRefusal::Full);
        }
        let Ok(at) = u32::try_from(self.groups.len()) else {
            return Err(OpenRefusal::Full);
        };
        let Some(id) = at.checked_add(1) else {
            return Err(OpenRefusal::Full);
        };
        let Ok(group) = first_joined(self.alloc, self.boot, id) else {
            return Err(OpenRefusal::Memory);
        };
        match self.list(group) {
            Ok(()) => Ok(id),
            Err(_) => Err(OpenRefusal::Memory),
        }
    }

    /// Lists a group behind the others.
    fn list(&mut self, group: Group) -> Result<(), NoMemory>
        requires { self.old.open_groups < 1024 }
        ensures ok { OnOk result (self.new ≡ record self.old { groups = self.old.groups ++ group ∷ []; open_groups = self.old.open_groups + 1; counts = self.new.counts }) }
        ensures counted { OnOk result (AddsGroup self.old.counts self.new.counts) }
        ensures err { OnErr result (self.new ≡ self.old) }
    {
        self.groups.reserve(1)?;
        self.groups.push_reserved(group);
        self.open_groups += 1;
        self.counts.opened();
        Ok(())
    }
}
