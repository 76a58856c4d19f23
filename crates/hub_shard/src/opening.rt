//! A group is opened.
ghost use Rattle.std.specs.Prelude.{◌≡◌, ◌+◌, ◌<◌, ◌++◌, ◌∷◌, [], IfOk, OnOk, OnErr};
ghost use Rattle.hub_story.specs.declared.item.Mark.TheVariants.{Opened};
ghost use Rattle.hub_story.specs.Histories.{home_of};
ghost use Rattle.hub_shard.specs.Openings.{IsFirst, Opens};

use crate::act::Act;
use crate::answer::OpenRefusal;
use crate::find::id_at;
use crate::shard::{Listed, Shard};
use group_core::Group;
use hub_story::Mark;
use rpc_base::NoMemory;
use std::alloc::Global;

/// How many groups of a shard may be open.
const MOST_GROUPS: usize = 64;

/// A new group, which its first connection has joined.
fn first_joined(alloc: Global, boot: u64, id: u32) -> Result<Listed, NoMemory>
    ensures { IfOk result (λ l. IsFirst (home_of boot id) l) }
{
    let mut group = Group::begin(alloc, boot, id)?;
    match group.join() {
        Ok(_) => {}
        Err(_) => return Err(NoMemory),
    }
    let _ = group.journal();
    Ok(Listed {
        group,
        retired: false,
    })
}

impl Shard {
    /// Opens the group of the next id, which its first connection has joined.
    fn open_next(&mut self) -> Result<u32, OpenRefusal>
        ensures { Opens self.old result self.new }
    {
        if self.open_groups >= MOST_GROUPS {
            return Err(OpenRefusal::GroupsFull);
        }
        let Ok(at) = u32::try_from(self.groups.len()) else {
            return Err(OpenRefusal::Ids);
        };
        let Ok(id) = u32::try_from(id_at(self.number, at as usize)) else {
            return Err(OpenRefusal::Ids);
        };
        let Ok(listed) = first_joined(self.alloc, self.boot, id) else {
            return Err(OpenRefusal::Memory);
        };
        match self.list(id, listed) {
            Ok(()) => Ok(id),
            Err(_) => Err(OpenRefusal::Memory),
        }
    }

    /// Lists a group, with room for its Retired.
    fn list(&mut self, id: u32, listed: Listed) -> Result<(), NoMemory>
        requires { self.old.open_groups < 64 }
        ensures ok { OnOk result (self.new ≡ record self.old { marks = Opened id ∷ self.old.marks; groups = self.old.groups ++ listed ∷ []; open_groups = self.old.open_groups + 1 }) }
        ensures err { OnErr result (self.new ≡ self.old) }
    {
        self.groups.reserve(1)?;
        self.marks.reserve(self.open_groups + 2)?;
        self.marks.push_reserved(Mark::Opened(id));
        self.groups.push_reserved(listed);
        self.open_groups += 1;
        Ok(())
    }
}

/// A group is opened.
#[derive(Clone, Copy)]
pub struct OpenNext;

impl Act for OpenNext {
    ghost use Rattle.hub_shard.specs.Openings.{asks_open, gives_open};

    type Answer = Result<u32, OpenRefusal>;

    ghost asks = { asks_open };

    ghost gives = { gives_open };

    fn act(self, shard: &mut Shard) -> (Result<u32, OpenRefusal>, u64) {
        match shard.open_next() {
            Ok(id) => (Ok(id), 2),
            Err(refusal) => (Err(refusal), 0),
        }
    }
}
