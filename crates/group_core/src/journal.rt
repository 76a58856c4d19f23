//! The entries of a group.
ghost use Rattle.std.specs.Prelude.{◌≡◌, ◌+◌, ◌++◌, ◌≤◌, ◌==◌, [], ◌∷◌, length, drop, slice_get, IfOk, OnOk, OnErr};
ghost use Rattle.std.specs.Option.{option_copied};
ghost use Rattle.handle_model.specs.Bases.{empty_base};
ghost use Rattle.group_core.specs.Kept.{Came, Same};

use handle_model::{Base, Entry};
use rpc_base::NoMemory;
use std::alloc::Global;
use std::marker::Model;

/// The journal of a group: what it goes on from, and its entries, oldest first. Contracts see both, and
/// for how many more there is room.
#[derive(Drop)]
pub struct Journal {
    base: Base,
    entries: Vec<Entry>,
    spare: usize,
}

impl Model for Journal {
    ghost use Rattle.std.specs.Prelude.{◌+◌, ◌≤◌, vec_len, vec_capacity};
    ghost use Rattle.group_core.specs.Kept.{Logged};

    ghost Value = { Logged };

    ghost view = { λ j. record { base = j.base; entries = j.entries.items; spare = j.spare } };

    ghost invariant = { λ j. vec_len j.entries + j.spare ≤ vec_capacity j.entries };
}

impl Journal {
    /// No entry before and none since, and no room. It takes no memory.
    pub fn new(alloc: Global) -> Journal
        ensures { result ≡ record { base = empty_base; entries = []; spare = 0 } }
    {
        Journal {
            base: Base::empty(alloc),
            entries: Vec::new(alloc),
            spare: 0,
        }
    }

    /// What is left of the entries before these.
    pub fn base(&self) -> &Base
        ensures { result.now ≡ self.now.base }
    {
        &self.base
    }

    /// How many entries there are, those of the base apart.
    pub fn len(&self) -> usize
        ensures { result ≡ length self.now.entries }
    {
        self.entries.len()
    }

    /// How many entries there ever were.
    pub fn size(&self) -> u128
        ensures { result ≡ self.now.base.count + length self.now.entries }
    {
        u128::from(count_before(&self.base)) + self.entries.len() as u128
    }

    /// Whether there is none.
    pub fn is_empty(&self) -> bool
        ensures { result ≡ (length self.now.entries == 0) }
    {
        self.entries.len() == 0
    }

    /// The entry of that index, from 0.
    pub fn get(&self, at: usize) -> Option<&Entry>
        ensures { option_copied result ≡ slice_get self.now.entries at }
    {
        self.entries.get(at)
    }

    /// The entries.
    pub fn as_slice(&self) -> &[Entry]
        ensures { result.now ≡ self.now.entries }
    {
        self.entries.as_slice()
    }

    /// An equal journal. For no further entry there is room.
    ///
    /// # Errors
    /// `NoMemory` where memory runs out.
    pub fn copy(&self, alloc: Global) -> Result<Journal, NoMemory>
        ensures { IfOk result (λ copy. (copy.base ≡ self.now.base) × (copy.entries ≡ self.now.entries)) }
    {
        let mut copy = Journal {
            base: self.base.copy(alloc)?,
            entries: Vec::new(alloc),
            spare: 0,
        };
        put_copies(alloc, self.entries.as_slice(), &mut copy)?;
        Ok(copy)
    }

    /// Adds an entry, in memory of its own: the room stays.
    ///
    /// # Errors
    /// `NoMemory` where memory runs out; the journal is then as before.
    pub fn push(&mut self, entry: Entry) -> Result<(), NoMemory>
        ensures base { self.new.base ≡ self.old.base }
        ensures ok { OnOk result (self.new.entries ≡ self.old.entries ++ entry ∷ []) }
        ensures err { OnErr result (self.new.entries ≡ self.old.entries) }
        ensures room { self.new.spare ≡ self.old.spare }
    {
        self.reserve(1)?;
        self.add(entry, 0);
        Ok(())
    }

    /// For how many more entries there is room.
    pub(crate) fn spare(&self) -> usize
        ensures { result ≡ self.now.spare }
    {
        self.spare
    }

    /// Makes room for so many more.
    pub(crate) fn reserve(&mut self, more: usize) -> Result<(), NoMemory>
        ensures entries { Same self.old self.new }
        ensures ok { OnOk result (self.new.spare ≡ self.old.spare + more) }
        ensures err { OnErr result (self.new.spare ≡ self.old.spare) }
    {
        let Some(wanted) = self.spare.checked_add(more) else {
            return Err(NoMemory);
        };
        self.entries.reserve(wanted)?;
        self.spare = wanted;
        Ok(())
    }

    /// Adds an entry for which there is room, and gives up the room for so many more.
    pub(crate) fn add(&mut self, entry: Entry, freed: usize)
        requires { freed + 1 ≤ self.old.spare }
        ensures entries { Came self.old entry self.new }
        ensures spare { self.new.spare + freed + 1 ≡ self.old.spare }
    {
        self.spare = self.spare - freed - 1;
        self.entries.push_reserved(entry);
    }

    /// Gives memory back for which no entry is to come.
    pub(crate) fn trim(&mut self)
        ensures { self.new ≡ self.old }
    {
        let wanted = self.entries.len() + self.spare;
        self.entries.shrink_to(wanted);
    }

    /// Drops the oldest entries, for a base that stands for them. Memory that is then far too much is
    /// given back.
    pub(crate) fn fold(&mut self, base: Base, count: usize)
        requires { count ≤ length self.old.entries }
        ensures base { self.new.base ≡ base }
        ensures entries { self.new.entries ≡ drop count self.old.entries }
        ensures spare { self.new.spare ≡ self.old.spare }
    {
        self.base = base;
        self.entries.drain(..count);
        let wanted = self.entries.len() + self.spare;
        if self.entries.capacity() / 4 > wanted {
            self.entries.shrink_to(wanted);
        }
    }
}

fn count_before(base: &Base) -> u64
    ensures { result ≡ base.now.count }
{
    base.count
}

/// Adds equal entries.
#[tactic(auto, using(handle_model::proofs::Rest::resting))]
fn put_copies(alloc: Global, entries: &[Entry], into: &mut Journal) -> Result<(), NoMemory>
    ensures base { into.new.base ≡ into.old.base }
    ensures entries { OnOk result (into.new.entries ≡ into.old.entries ++ entries.now) }
{
    for entry in entries {
        into.push(entry.copy(alloc)?)?;
    }
    Ok(())
}
