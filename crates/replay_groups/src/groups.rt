//! The groups.
ghost use Rattle.std.specs.Prelude.{◌≡◌, List, [], IfOk};
ghost use Rattle.handle_model.specs.declared.entry.Entry.{Entry};
ghost use Rattle.replay_script.specs.Counting.{TellsJournals};
ghost use Rattle.replay_groups.specs.Keeps.{Keeps};

use group_core::Group;
use replay_script::Counts;
use std::alloc::Global;
use std::marker::Model;

/// The groups of a replay, by their ids from 1. Contracts see the journal that each of them keeps.
#[derive(Drop)]
pub struct Groups {
    pub(crate) alloc: Global,
    pub(crate) boot: u64,
    pub(crate) groups: Vec<Group>,
    /// How many are open.
    pub(crate) open_groups: usize,
    /// How many entries of each kind the whole journals have.
    pub(crate) counts: Counts,
}

impl Model for Groups {
    ghost use Rattle.replay_groups.specs.Keeps.{GroupsView};

    ghost Value = { GroupsView };

    ghost view = { λ g. record { boot = g.boot; groups = g.groups.items; open_groups = g.open_groups; counts = g.counts } };
}

impl Groups {
    /// No groups, of a server with that boot word. It takes no memory.
    pub fn new(alloc: Global, boot: u64) -> Groups
        ensures whose { result.boot ≡ boot }
        ensures none { Keeps result [] }
    {
        Groups {
            alloc,
            boot,
            groups: Vec::new(alloc),
            open_groups: 0,
            counts: Counts::none(),
        }
    }

    /// The boot word of the server.
    pub fn boot(&self) -> u64
        ensures { result ≡ self.now.boot }
    {
        self.boot
    }

    /// How many entries of each kind the whole journals have.
    pub fn counts(&self) -> &Counts
        ensures { (pasts : List (List Entry)) → Keeps self.now pasts → TellsJournals result.now pasts }
    {
        &self.counts
    }

    /// The groups, that of the id 1 first.
    pub fn as_slice(&self) -> &[Group]
        ensures { result.now ≡ self.now.groups }
    {
        self.groups.as_slice()
    }
}
