//! Dials in memory.
ghost use Rattle.std.specs.Prelude.{◌≡◌, ◌≤◌, true};
ghost use Rattle.rpc_outside.specs.LinkLists.{are_new};

use crate::address::Address;
use crate::dial::Dial;
use crate::links::Links;
use crate::script_link::ScriptLink;
use rpc_base::{Items, Numbers, OutFault};
use std::alloc::Global;

/// A dial in memory, which opens the links of a list, whatever the address. The calls of `dial` whose
/// numbers, from 1, are listed fail, and so does one that finds no link left.
#[derive(Drop)]
pub struct ScriptDial {
    to_come: Links,
    given_back: Links,
    failing: Numbers,
    dialled: Items<Address>,
    out: usize,
    calls: u64,
    faults: u64,
    ghost fresh: { are_new to_come.items ≡ true },
    ghost places: { out ≤ given_back.room },
}

impl ScriptDial {
    ghost use Rattle.rpc_outside.specs.ScriptDials.{dial_shown, dial_opening};

    /// A dial that opened nothing yet. Each link is new.
    pub fn new(alloc: Global, links: Links, failing: Numbers) -> ScriptDial
        requires { are_new links.items ≡ true }
        ensures shown { dial_shown result ≡ dial_opening }
        ensures to_come { result.to_come ≡ links }
        ensures failing { result.failing ≡ failing }
        ensures unused { result.calls ≡ 0 }
    {
        ScriptDial {
            to_come: links,
            given_back: Links::new(alloc),
            failing,
            dialled: Items::new(alloc),
            out: 0,
            calls: 0,
            faults: 0,
        }
    }

    /// The links that were given back so far, the last one last.
    pub fn given_back(&self) -> &Links
        ensures { result.now ≡ self.now.given_back }
    {
        &self.given_back
    }
}

impl Dial for ScriptDial {
    type Link = ScriptLink;

    ghost use Rattle.std.specs.Prelude.{◌+◌, ◌-◌, ◌^◌, ◌↔◌, ◌⊎◌, ◌∷◌, [], min, Contains, IfOk, OnErr, IsErrOf};
    ghost use Rattle.rpc_outside.specs.Dials.{Dials, DialBacks};
    ghost use Rattle.rpc_outside.specs.Doors.{HasOut};
    ghost use Rattle.rpc_outside.specs.ScriptLinks.{shown};
    ghost use Rattle.rpc_outside.specs.ScriptDials.{dial_shown};

    ghost shows = { dial_shown };

    fn dial(&mut self, at: Address) -> Result<ScriptLink, OutFault>
        ensures dials { Dials shown (dial_shown self.old) at result (dial_shown self.new) }
        ensures fails { IsErrOf result OutFault.Failed ↔ (Contains self.old.failing (min (self.old.calls + 1) (2 ^ 64 - 1)) ⊎ (self.old.to_come.items ≡ [])) }
        ensures next { IfOk result (λ link. self.old.to_come.items ≡ link ∷ self.new.to_come.items) }
        ensures waits { OnErr result (self.new.to_come ≡ self.old.to_come) }
        ensures counted { (self.new.calls ≡ min (self.old.calls + 1) (2 ^ 64 - 1)) × (self.new.failing ≡ self.old.failing) }
    {
        self.calls = self.calls.saturating_add(1);
        if self.failing.as_slice().contains(&self.calls) || self.to_come.is_empty() {
            self.faults = self.faults.saturating_add(1);
            return Err(OutFault::Failed);
        }
        let Some(out) = self.out.checked_add(1) else {
            return Err(OutFault::Memory);
        };
        self.given_back.make_room(out)?;
        self.dialled.push(at)?;
        match self.to_come.take_first() {
            Some(link) => {
                self.out = out;
                Ok(link)
            }
            None => unreachable!(),
        }
    }

    fn back(&mut self, link: ScriptLink)
        requires is_out { HasOut (dial_shown self.old).out }
        ensures backs { DialBacks (dial_shown self.old) link (dial_shown self.new) }
        ensures same { (self.new.to_come ≡ self.old.to_come) × (self.new.calls ≡ self.old.calls) × (self.new.failing ≡ self.old.failing) }
    {
        self.out -= 1;
        self.given_back.add(link);
    }
}
