//! The value under one lock.
ghost use Rattle.std.specs.Prelude.{◌≡◌, ◌<◌, ◌≤◌, [], ◌∷◌};
ghost use Rattle.hub_story.specs.Directories.{index_of};
ghost use Rattle.hub_story.specs.declared.item.Item.TheVariants.{Begun};
ghost use Rattle.hub_shard.specs.Shards.{Told};

use group_core::Group;
use hub_story::{Item, Mark};
use std::alloc::Global;
use std::marker::Model;
use turn_lock::Storied;

/// A group of the shard.
#[derive(Drop)]
pub struct Listed {
    pub group: Group,
    /// Whether its handles were run down.
    pub retired: bool,
}

/// The groups of every sixteenth id, and the directory of them. The id of index n is the shard's number
/// plus 1 plus 16 times n.
#[derive(Drop)]
pub struct Shard {
    pub(crate) alloc: Global,
    pub(crate) boot: u64,
    pub(crate) number: u32,
    pub(crate) marks: Vec<Mark>,
    pub(crate) groups: Vec<Listed>,
    /// How many groups are open.
    pub(crate) open_groups: usize,
}

impl Model for Shard {
    ghost use Rattle.std.specs.Prelude.{◌+◌, ◌≤◌, reverse, vec_len, vec_capacity};
    ghost use Rattle.hub_shard.specs.Shards.{ShardView};

    ghost Value = { ShardView };

    ghost view = { λ s. record { boot = s.boot; number = s.number; marks = reverse s.marks.items; groups = s.groups.items; open_groups = s.open_groups } };

    // There is room for the Retired of each group that is open.
    ghost invariant = { λ s. vec_len s.marks + s.open_groups ≤ vec_capacity s.marks };
}

/// Whose history a shard's is: the boot word of the server, and the number of the shard.
#[derive(Clone, Copy, Debug, PartialEq, Eq)]
pub struct Whose {
    pub boot: u64,
    pub number: u32,
}

impl Storied for Shard {
    ghost use Rattle.std.specs.Prelude.{[], ◌∷◌};
    ghost use Rattle.hub_story.specs.declared.item.Item.TheVariants.{Begun};
    ghost use Rattle.hub_story.specs.Ties.{ties};
    ghost use Rattle.hub_shard.specs.Shards.{Told};

    type Entry = Item;

    type Start = Whose;

    ghost first = { λ whose. Begun whose.boot whose.number ∷ [] };

    ghost tells = { Told };

    ghost ties = { ties };
}

impl Shard {
    /// A shard without a group. Its history says whose it is, and nothing else. It takes no memory.
    pub fn new(alloc: Global, boot: u64, number: u32) -> Shard
        requires { number < 16 }
        ensures whose { (result.boot ≡ boot) × (result.number ≡ number) }
        ensures told { Told result (Begun boot number ∷ []) }
    {
        Shard {
            alloc,
            boot,
            number,
            marks: Vec::new(alloc),
            groups: Vec::new(alloc),
            open_groups: 0,
        }
    }
}

/// The index of an id in its shard.
pub(crate) fn index_of(id: u32) -> usize
    requires { 1 ≤ id }
    ensures { result ≡ index_of id }
{
    ((id - 1) / 16) as usize
}
