//! Doors in memory.
ghost use Rattle.std.specs.Prelude.{◌≡◌, ◌≤◌, true};
ghost use Rattle.rpc_outside.specs.LinkLists.{are_new};

use crate::address::Address;
use crate::door::Door;
use crate::links::Links;
use crate::script_link::ScriptLink;
use rpc_base::{Numbers, OutFault};
use std::alloc::Global;

/// A door in memory, which hands out the links of a list. The calls of `listen` and `next` whose
/// numbers, from 1 and counted together, are listed fail. It closes after its last link.
#[derive(Drop)]
pub struct ScriptDoor {
    to_come: Links,
    given_back: Links,
    failing: Numbers,
    listens: Option<Address>,
    out: usize,
    calls: u64,
    faults: u64,
    closings: u64,
    ghost fresh: { are_new to_come.items ≡ true },
    ghost places: { out ≤ given_back.room },
}

impl ScriptDoor {
    ghost use Rattle.std.specs.Prelude.{◌+◌, ◌-◌, ◌^◌, ◌↔◌, min, Contains, IsTrue};
    ghost use Rattle.rpc_base.specs.Causes.{Rose};
    ghost use Rattle.rpc_outside.specs.Doors.{DoorSame};
    ghost use Rattle.rpc_outside.specs.ScriptDoors.{door_shown, door_opening};

    /// A door that listens nowhere yet. Each link is new.
    pub fn new(alloc: Global, links: Links, failing: Numbers) -> ScriptDoor
        requires { are_new links.items ≡ true }
        ensures shown { door_shown result ≡ door_opening links.items }
        ensures failing { result.failing ≡ failing }
        ensures unused { result.calls ≡ 0 }
    {
        ScriptDoor {
            to_come: links,
            given_back: Links::new(alloc),
            failing,
            listens: None,
            out: 0,
            calls: 0,
            faults: 0,
            closings: 0,
        }
    }

    /// The links that were given back so far, the last one last.
    pub fn given_back(&self) -> &Links
        ensures { result.now ≡ self.now.given_back }
    {
        &self.given_back
    }

    /// Counts a call, and whether it is to fail. One that is to fail counts as a fault.
    fn fails(&mut self) -> bool
        ensures same { DoorSame (door_shown self.old) (door_shown self.new) }
        ensures rose { IsTrue result → Rose self.old.faults self.new.faults }
        ensures listed { IsTrue result ↔ Contains self.old.failing (min (self.old.calls + 1) (2 ^ 64 - 1)) }
        ensures counted { (self.new.calls ≡ min (self.old.calls + 1) (2 ^ 64 - 1)) × (self.new.failing ≡ self.old.failing) }
    {
        self.calls = self.calls.saturating_add(1);
        let fails = self.failing.as_slice().contains(&self.calls);
        if fails {
            self.faults = self.faults.saturating_add(1);
        }
        fails
    }
}

impl Door for ScriptDoor {
    type Link = ScriptLink;

    ghost use Rattle.std.specs.Prelude.{◌+◌, ◌-◌, ◌^◌, ◌↔◌, min, Contains, IsErrOf};
    ghost use Rattle.rpc_outside.specs.Doors.{Listens, Nexts, Backs, HasOut};
    ghost use Rattle.rpc_outside.specs.ScriptLinks.{shown};
    ghost use Rattle.rpc_outside.specs.ScriptDoors.{door_shown};

    ghost shows = { door_shown };

    fn listen(&mut self, at: Address) -> Result<(), OutFault>
        ensures listens { Listens (door_shown self.old) at result (door_shown self.new) }
        ensures fails { IsErrOf result OutFault.Failed ↔ Contains self.old.failing (min (self.old.calls + 1) (2 ^ 64 - 1)) }
        ensures counted { (self.new.calls ≡ min (self.old.calls + 1) (2 ^ 64 - 1)) × (self.new.failing ≡ self.old.failing) }
    {
        if self.fails() {
            return Err(OutFault::Failed);
        }
        self.listens = Some(at);
        Ok(())
    }

    fn next(&mut self) -> Result<Option<ScriptLink>, OutFault>
        ensures nexts { Nexts shown (door_shown self.old) result (door_shown self.new) }
        ensures fails { IsErrOf result OutFault.Failed ↔ Contains self.old.failing (min (self.old.calls + 1) (2 ^ 64 - 1)) }
        ensures counted { (self.new.calls ≡ min (self.old.calls + 1) (2 ^ 64 - 1)) × (self.new.failing ≡ self.old.failing) }
    {
        if self.fails() {
            return Err(OutFault::Failed);
        }
        let Some(out) = self.out.checked_add(1) else {
            return Err(OutFault::Memory);
        };
        self.given_back.make_room(out)?;
        let Some(link) = self.to_come.take_first() else {
            self.closings = self.closings.saturating_add(1);
            return Ok(None);
        };
        self.out = out;
        Ok(Some(link))
    }

    fn back(&mut self, link: ScriptLink)
        requires is_out { HasOut (door_shown self.old).out }
        ensures backs { Backs (door_shown self.old) link (door_shown self.new) }
        ensures same { (self.new.calls ≡ self.old.calls) × (self.new.failing ≡ self.old.failing) }
    {
        self.out -= 1;
        self.given_back.add(link);
    }

    fn shut(&mut self)
        ensures same { self.new ≡ self.old }
    {}
}
