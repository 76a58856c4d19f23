//! A group is opened.
ghost use Rattle.std.specs.Prelude.{◌≡◌, ◌<◌, ◌≤◌, ℕ, IfOk, []};
ghost use Rattle.hub_story.specs.Passes.{Serves};
ghost use Rattle.hub_story.specs.Still.{StillHas};
ghost use Rattle.group_hub.specs.Passes.{IsPassOf, At, at_shard};
ghost use Rattle.group_hub.specs.Shards.{shard_of};
ghost use Rattle.group_hub.specs.Openings.{Opens, LooksAmong, Tries, looked_of};

use crate::hub::Hub;
use crate::pass::Pass;
use hub_shard::OpenRefusal;
use std::sync::Wait;
use std::sync::atomic::Ordering;

/// What came of looking for room at some shards.
#[derive(Clone, Copy)]
pub(crate) enum Looked {
    /// There was room, and the group of this id was opened.
    Opened(u32),
    /// None had room; whether one of them had 64 open groups.
    NoRoom(bool),
    /// Want of memory.
    NoMemory,
}

impl Hub {
    /// Opens a group, which connection 1 of this pass has joined, at the first shard with room that it comes
    /// to. Where it looks first is free.
    ///
    /// # Errors
    ///
    /// `GroupsFull` where no shard had room and one of them had 64 open groups, `Ids` where no shard had an
    /// id left, and `Memory` for want of memory.
    pub fn open_group<R: Wait>(&self, rt: &R, pass: &mut Pass) -> Result<(u32, u32), OpenRefusal>
        requires { IsPassOf self.now pass.old }
        ensures pass { IsPassOf self.now pass.new }
        ensures opens { Opens self.now.boot pass.old result pass.new }
        ensures still { (s : ℕ) → s < 16 → StillHas (at_shard pass.old s) (at_shard pass.new s) [] }
        ensures serves { IfOk result (λ opened. Serves (at_shard pass.new (shard_of opened.0)) opened.0 opened.1) }
    {
        let first = (self.hint.fetch_add(1, Ordering::SeqCst) % 16) as usize;
        let one_full = match self.open_among(rt, pass, first, 16) {
            Looked::Opened(id) => return Ok((id, 1)),
            Looked::NoMemory => return Err(OpenRefusal::Memory),
            Looked::NoRoom(full) => full,
        };
        match self.open_among(rt, pass, 0, first) {
            Looked::Opened(id) => Ok((id, 1)),
            Looked::NoMemory => Err(OpenRefusal::Memory),
            Looked::NoRoom(full) => {
                if one_full {
                    return Err(OpenRefusal::GroupsFull);
                }
                if full {
                    return Err(OpenRefusal::GroupsFull);
                }
                Err(OpenRefusal::Ids)
            }
        }
    }

    /// Opens a group at one shard, where it has room.
    fn open_at<R: Wait>(&self, rt: &R, pass: &mut Pass, number: usize) -> Result<u32, OpenRefusal>
        requires pass { IsPassOf self.now pass.old }
        requires small { number < 16 }
        ensures pass { IsPassOf self.now pass.new }
        ensures call { At number pass.old pass.new (λ v w. Tries self.now.boot number result v w) }
    {
        self.shard(number).open_next(rt, &mut pass.shards[number])
    }

    /// Opens a group at the first shard with room of those from one number up to before another.
    fn open_among<R: Wait>(&self, rt: &R, pass: &mut Pass, from: usize, to: usize) -> Looked
        requires pass { IsPassOf self.now pass.old }
        requires range { (from ≤ to) × (to ≤ 16) }
        ensures pass { IsPassOf self.now pass.new }
        ensures looks { LooksAmong self.now.boot from to pass.old result pass.new }
    {
        let mut full = false;
        for number in from..to {
            let result = self.open_at(rt, pass, number);
            match after(result, full) {
                Looked::Opened(id) => return Looked::Opened(id),
                Looked::NoMemory => return Looked::NoMemory,
                Looked::NoRoom(now) => full = now,
            }
        }
        Looked::NoRoom(full)
    }
}

/// What has come of looking at a shard more; whether one before it had 64 open groups is known.
fn after(answer: Result<u32, OpenRefusal>, full: bool) -> Looked
    ensures { result ≡ looked_of answer full }
{
    match answer {
        Ok(id) => Looked::Opened(id),
        Err(OpenRefusal::GroupsFull) => Looked::NoRoom(true),
        Err(OpenRefusal::Ids) => Looked::NoRoom(full),
        Err(OpenRefusal::Memory) => Looked::NoMemory,
    }
}
