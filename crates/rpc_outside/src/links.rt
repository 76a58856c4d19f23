//! Lists of links in memory.
ghost use Rattle.std.specs.Prelude.{◌≡◌, ◌+◌, ◌<◌, ◌≤◌, ◌++◌, ◌==◌, true, [], ◌∷◌, length, slice_get, IfNone, OnOk, OnErr, option_to_list};
ghost use Rattle.std.specs.Option.{option_copied};
ghost use Rattle.rpc_outside.specs.LinkLists.{is_new, are_new};

use crate::script_link::ScriptLink;
use rpc_base::NoMemory;
use std::alloc::Global;
use std::marker::Model;

/// A list of links. Contracts see its links, and for how many more there is room.
#[derive(Drop)]
pub struct Links {
    links: Vec<ScriptLink>,
    room: usize,
}

impl Model for Links {
    ghost use Rattle.std.specs.Prelude.{◌+◌, ◌≤◌, vec_len, vec_capacity};
    ghost use Rattle.rpc_outside.specs.LinkLists.{Listed};

    ghost Value = { Listed };

    ghost view = { λ l. record { items = l.links.items; room = l.room } };

    ghost invariant = { λ l. vec_len l.links + l.room ≤ vec_capacity l.links };
}

impl Links {
    /// No link, and no room. It takes no memory.
    pub fn new(alloc: Global) -> Links
        ensures { result ≡ record { items = []; room = 0 } }
    {
        Links {
            links: Vec::new(alloc),
            room: 0,
        }
    }

    /// How many links there are.
    pub fn len(&self) -> usize
        ensures { result ≡ length self.now.items }
    {
        self.links.len()
    }

    /// Whether there is none.
    pub fn is_empty(&self) -> bool
        ensures { result ≡ (length self.now.items == 0) }
    {
        self.links.is_empty()
    }

    /// The link at an index from 0.
    pub fn get(&self, at: usize) -> Option<&ScriptLink>
        ensures { option_copied result ≡ slice_get self.now.items at }
    {
        self.links.get(at)
    }

    /// Adds a link at the end.
    ///
    /// # Errors
    ///
    /// `NoMemory` where there is no memory for it; the link is dropped.
    #[tactic(auto, using(crate::proofs::DoorLemmas::new_push))]
    pub fn push(&mut self, link: ScriptLink) -> Result<(), NoMemory>
        ensures ok { OnOk result (self.new.items ≡ self.old.items ++ link ∷ []) }
        ensures err { OnErr result (self.new.items ≡ self.old.items) }
        ensures all_new { are_new self.old.items ≡ true → is_new link ≡ true → are_new self.new.items ≡ true }
    {
        let Some(wanted) = self.room.checked_add(1) else {
            return Err(NoMemory);
        };
        self.make_room(wanted)?;
        self.add(link);
        Ok(())
    }

    /// Makes room for so many more links.
    pub(crate) fn make_room(&mut self, wanted: usize) -> Result<(), NoMemory>
        ensures items { self.new.items ≡ self.old.items }
        ensures ok { OnOk result (wanted ≤ self.new.room) }
        ensures more { self.old.room ≤ self.new.room }
    {
        if self.room < wanted {
            self.links.reserve(wanted)?;
            self.room = wanted;
        }
        Ok(())
    }

    /// Adds a link for which there is room.
    pub(crate) fn add(&mut self, link: ScriptLink)
        requires { 0 < self.old.room }
        ensures items { self.new.items ≡ self.old.items ++ link ∷ [] }
        ensures room { self.new.room + 1 ≡ self.old.room }
    {
        self.room -= 1;
        self.links.push_reserved(link);
    }

    /// Takes the first link out. Its room isn't kept.
    pub(crate) fn take_first(&mut self) -> Option<ScriptLink>
        ensures items { self.old.items ≡ option_to_list result ++ self.new.items }
        ensures none { IfNone result (self.old.items ≡ []) }
    {
        self.room = 0;
        if self.links.is_empty() {
            return None;
        }
        Some(self.links.remove(0))
    }
}
