//! A connection joins the group of an id.
ghost use Rattle.std.specs.Prelude.{◌≡◌, ◌<◌, ◌^◌, false, length, MatchOption, IfOk, OnOk, OnErr};
ghost use Rattle.handle_model.specs.History.{IsSound, history_of};
ghost use Rattle.handle_model.specs.Journal as journal;
ghost use Rattle.std.specs.List.{list_any};
ghost use Rattle.group_core.specs.Conns.{Joins};
ghost use Rattle.hub_story.specs.declared.item.Mark.TheVariants.{Missed};
ghost use Rattle.hub_story.specs.Directories.{id_of};
ghost use Rattle.hub_shard.specs.Shards.{listed_at, TouchedAt, MarkedBy, IsNoId};
ghost use Rattle.hub_shard.specs.Finds.{Misses, IsState};
ghost use Rattle.hub_shard.specs.declared.shard.Listed.{Listed};

use crate::act::Act;
use crate::answer::{Absence, FindRefusal};
use crate::shard::{Listed, Shard, index_of};
use group_core::{JoinRefusal, Journal};
use hub_story::Mark;
use rpc_base::NoMemory;
use std::alloc::Global;

/// How far a group is.
#[derive(Clone, Copy)]
pub(crate) enum State {
    Open,
    /// It has ended, after so many entries.
    Shut(u128),
    Retired,
}

impl Listed {
    fn join(&mut self) -> Result<u32, JoinRefusal>
        requires { list_any journal.is_shut self.old.group.past ≡ false }
        ensures joins { Joins self.old.group result self.new.group }
        ensures flag { self.new.retired ≡ self.old.retired }
        ensures sound { IsSound self.new.group }
    {
        let result = self.group.join();
        let _ = self.group.journal();
        result
    }

    fn copy(&self, alloc: Global) -> Result<Journal, NoMemory>
        ensures { IfOk result (λ journal. history_of self.now.group.home journal.base journal.entries ≡ self.now.group) }
    {
        self.group.journal().copy(alloc)
    }

    /// How far it is.
    fn state(&self) -> State
        ensures { IsState self.now result }
    {
        if self.retired {
            return State::Retired;
        }
        if self.group.has_shut() {
            return State::Shut(self.group.journal().size());
        }
        State::Open
    }
}

impl Shard {
    /// The index of the group of an id, if it was opened.
    pub(crate) fn index(&self, id: u32) -> Option<usize>
        requires { self.now.number < 16 }
        ensures { MatchOption result (IsNoId self.now id) (λ i. (i < length self.now.groups) × (id ≡ id_of self.now.number i)) }
    {
        if id == 0 {
            return None;
        }
        let at = index_of(id);
        if at >= self.groups.len() {
            return None;
        }
        if id_at(self.number, at) != u64::from(id) {
            return None;
        }
        Some(at)
    }

    /// How far the group of an index is.
    fn state(&self, at: usize) -> State
        requires { at < length self.now.groups }
        ensures { IsState (listed_at self.now at) result }
    {
        self.groups[at].state()
    }

    /// A connection joins the group of an index.
    fn join(&mut self, at: usize) -> Result<u32, JoinRefusal>
        requires there { at < length self.old.groups }
        requires unshut { list_any journal.is_shut (listed_at self.old at).group.past ≡ false }
        ensures { (l : Listed) × TouchedAt self.old at l self.new × Joins (listed_at self.old at).group result l.group }
    {
        self.groups[at].join()
    }

    /// A copy of the journal of the group of an index.
    pub(crate) fn copy(&self, at: usize) -> Result<Journal, NoMemory>
        requires { at < length self.now.groups }
        ensures { IfOk result (λ journal. history_of (listed_at self.now at).group.home journal.base journal.entries ≡ (listed_at self.now at).group) }
    {
        self.groups[at].copy(self.alloc)
    }

    /// Marks an id as missed, and gives the place of the mark.
    fn miss(&mut self, id: u32) -> Result<usize, NoMemory>
        ensures ok { OnOk result (MarkedBy self.old (Missed id) self.new) }
        ensures place { IfOk result (λ n. n ≡ length self.old.marks) }
        ensures err { OnErr result (self.new ≡ self.old) }
    {
        let Some(wanted) = self.open_groups.checked_add(1) else {
            return Err(NoMemory);
        };
        self.marks.reserve(wanted)?;
        let place = self.marks.len();
        self.marks.push_reserved(Mark::Missed(id));
        Ok(place)
    }
}

/// The id of an index.
pub(crate) fn id_at(number: u32, at: usize) -> u64
    requires { at < 2 ^ 32 }
    ensures { result ≡ id_of number at }
{
    u64::from(number) + 1 + 16 * at as u64
}

/// A connection joins the group of an id.
#[derive(Clone, Copy)]
pub struct Find {
    pub id: u32,
}

impl Act for Find {
    ghost use Rattle.hub_shard.specs.Finds.{asks_find, gives_find};

    type Answer = Result<u32, FindRefusal>;

    ghost asks = { asks_find };

    ghost gives = { gives_find };

    fn act(self, shard: &mut Shard) -> (Result<u32, FindRefusal>, u64) {
        let id = self.id;
        let Some(at) = shard.index(id) else {
            return miss(shard, id);
        };
        match shard.state(at) {
            State::Retired => miss(shard, id),
            State::Shut(entries) => (Err(FindRefusal::NoGroup(Absence::Shut(entries))), 0),
            State::Open => match shard.join(at) {
                Ok(conn) => (Ok(conn), 1),
                Err(JoinRefusal::TooMany) => (Err(FindRefusal::TooMany), 0),
                Err(JoinRefusal::Numbers) => (Err(FindRefusal::Numbers), 0),
                Err(JoinRefusal::Memory) => (Err(FindRefusal::Memory), 0),
            },
        }
    }
}

/// No group of that id is open.
fn miss(shard: &mut Shard, id: u32) -> (Result<u32, FindRefusal>, u64)
    ensures { Misses shard.old id result shard.new }
{
    match shard.miss(id) {
        Ok(place) => (Err(FindRefusal::NoGroup(Absence::Directory(place))), 1),
        Err(_) => (Err(FindRefusal::Memory), 0),
    }
}
