//! A group that has ended is retired.
ghost use Rattle.std.specs.Prelude.{◌≡◌, ◌≤◌};
ghost use Rattle.hub_shard.specs.Shards.{Has};
ghost use Rattle.hub_shard.specs.Retirings.{retired_listed, RetiresAs};

use crate::act::Act;
use crate::answer::{Retired, ShutKey};
use crate::shard::{Listed, Shard, index_of};
use hub_story::Mark;

impl Listed {
    /// Its handles were run down: of what it has, it keeps its journal.
    fn retire(&mut self)
        ensures { self.new ≡ retired_listed self.old }
    {
        self.group.give_back();
        self.retired = true;
    }
}

impl Shard {
    /// Marks a group as retired, in the room that was made when it was opened.
    fn retire(&mut self, group: u32)
        requires there { Has self.old group }
        requires open { 1 ≤ self.old.open_groups }
        ensures { RetiresAs self.old group self.new }
    {
        self.open_groups -= 1;
        self.marks.push_reserved(Mark::Retired(group));
        self.groups[index_of(group)].retire();
    }
}

/// A group that has ended is retired, by its key.
pub struct Retire {
    pub key: ShutKey,
}

impl Act for Retire {
    ghost use Rattle.hub_shard.specs.Retirings.{asks_retire, gives_retire};

    type Answer = Retired;

    ghost asks = { asks_retire };

    ghost gives = { gives_retire };

    fn act(self, shard: &mut Shard) -> (Retired, u64) {
        let Retire { key } = self;
        let ShutKey { group } = key;
        shard.retire(group);
        (Retired { group }, 1)
    }
}
