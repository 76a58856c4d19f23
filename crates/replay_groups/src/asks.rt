//! Questions on one group.
ghost use Rattle.std.specs.Prelude.{◌≡◌, ◌||◌, ◌↔◌, true, List};
ghost use Rattle.std.specs.List.{list_any};
ghost use Rattle.handle_model.specs.declared.entry.Entry.{Entry};
ghost use Rattle.handle_model.specs.Entries.{is_shut};
ghost use Rattle.handle_model.specs.Journal.{runs, waits};
ghost use Rattle.handle_model.specs.Journal as journal;
ghost use Rattle.group_core.specs.Stages as stages;
ghost use Rattle.replay_world.specs.Worlds.{is_open_group};
ghost use Rattle.replay_groups.specs.Keeps.{GoesOn, Has, Keeps, Known, Told, group_at};
ghost use Rattle.replay_groups.specs.Binds.{AreKept, moment};

use crate::Groups;
use group_core::{Group, Stage};
use handle_model::Slot;

/// The group of an id.
pub(crate) fn group_of(groups: &Groups, id: u32) -> &Group
    requires { Has groups.now id }
    ensures { result.now ≡ group_at groups.now id }
{
    &groups.as_slice()[(id - 1) as usize]
}

/// Whether the group of that id was opened.
pub fn has(groups: &Groups, id: u32) -> bool
    ensures { (result ≡ true) ↔ Has groups.now id }
{
    id >= 1 && groups.as_slice().len() > (id - 1) as usize
}

/// Whether a group has ended. It takes no memory, and a time that doesn't grow with the journal.
pub fn has_ended(groups: &Groups, id: u32) -> bool
    requires { Has groups.now id }
    ensures { Told groups.now id (λ j. result ≡ list_any is_shut j.past) }
{
    group_of(groups, id).has_shut()
}

/// Whether the group of that id was opened and has not ended.
pub fn goes_on(groups: &Groups, id: u32) -> bool
    requires { AreKept groups.now }
    ensures told { (pasts : List (List Entry)) → Keeps groups.now pasts → result ≡ is_open_group (moment groups.now.boot pasts) id }
    ensures known { result ≡ true → Has groups.now id × GoesOn groups.now id }
{
    has(groups, id) && !has_ended(groups, id)
}

/// Where a call of a group is. It takes no memory.
pub fn stage(groups: &Groups, id: u32, call: u32) -> Stage
    requires { Has groups.now id }
    ensures { Told groups.now id (λ j. result ≡ stages.stage_of j call) }
{
    group_of(groups, id).stage(call)
}

/// The slots of a call of a group that waits or runs. It takes no memory.
pub fn slots(groups: &Groups, id: u32, call: u32) -> &[Slot]
    requires there { Has groups.now id }
    requires open_call { Known groups.now id (λ j. (waits j call || runs j call) ≡ true) }
    ensures { Told groups.now id (λ j. (waits j call || runs j call) ≡ true → result.now ≡ journal.slots j call) }
{
    group_of(groups, id).slots(call)
}

/// Whether a call of a group that runs was asked to end. It takes no memory.
pub fn is_asked(groups: &Groups, id: u32, call: u32) -> bool
    requires { Has groups.now id }
    ensures { Told groups.now id (λ j. runs j call ≡ true → result ≡ stages.is_asked j call) }
{
    group_of(groups, id).asked(call)
}
