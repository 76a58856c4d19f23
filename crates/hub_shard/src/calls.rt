//! Calls on a group of the shard.
ghost use Rattle.std.specs.Prelude.{◌≡◌, ◌<◌, ◌≤◌, ◌&&◌, not, true, false, length, ℕ, List};
ghost use Rattle.std.specs.List.{list_any};
ghost use Rattle.handle_model.specs.Journal as journal;
ghost use Rattle.group_core.specs.Calls.{Accepts, Takes, Cancels, Orphans, Ends};
ghost use Rattle.group_core.specs.Conns.{Leaves};
ghost use Rattle.call_table.specs.Ahead.{last_ahead};
ghost use Rattle.group_core.specs.Stages.{stage_of, is_asked};
ghost use Rattle.hub_shard.specs.Shards.{Has, Touched, group_of, listed_at};
ghost use Rattle.hub_story.specs.Directories.{index_of};
ghost use Rattle.handle_model.specs.History.{IsSound};
ghost use Rattle.hub_shard.specs.declared.shard.Listed.{Listed};
ghost use Rattle.hub_shard.specs.Counts.{taken_count, cancelled_count, orphaned_count};

use crate::act::Act;
use crate::answer::{HubRest, ShutKey};
use crate::shard::{Listed, Shard, index_of};
use group_core::{AcceptRefusal, Cancelled, Group, Orphaned, Rest, Stage, Taking};
use handle_model::{Asked, Outcomes, Said};
use std::marker::Brand;
use std::sync::ledger::{Blank, Ledger};
use wait_list::Steps;

impl Listed {
    fn accept(&mut self, asked: Asked) -> Result<u32, (Asked, AcceptRefusal)>
        requires open { journal.is_open self.old.group asked.conn ≡ true }
        requires few { length asked.slots ≤ 4 }
        ensures accepts { Accepts self.old.group asked result self.new.group }
        ensures flag { self.new.retired ≡ self.old.retired }
        ensures sound { IsSound self.new.group }
    {
        let result = self.group.accept(asked);
        let _ = self.group.journal();
        result
    }

    fn take(&mut self, call: u32) -> Taking
        ensures takes { Takes self.old.group call result self.new.group }
        ensures flag { self.new.retired ≡ self.old.retired }
        ensures sound { IsSound self.new.group }
    {
        let taking = self.group.take(call);
        let _ = self.group.journal();
        taking
    }

    fn cancel(&mut self, call: u32) -> Cancelled
        ensures cancels { Cancels self.old.group call result self.new.group }
        ensures flag { self.new.retired ≡ self.old.retired }
        ensures sound { IsSound self.new.group }
    {
        let cancelled = cancel_counted::<Brand>(&mut self.group, call, Blank::new(1));
        let _ = self.group.journal();
        cancelled
    }

    fn orphan(&mut self, call: u32) -> Orphaned
        ensures orphans { Orphans self.old.group call result self.new.group }
        ensures flag { self.new.retired ≡ self.old.retired }
        ensures sound { IsSound self.new.group }
    {
        let orphaned = self.group.orphan(call);
        let _ = self.group.journal();
        orphaned
    }

    fn end(&mut self, call: u32, results: Outcomes, said: Said) -> Rest
        requires runs { journal.runs self.old.group call ≡ true }
        requires suit { journal.suit (journal.slots self.old.group call) results ≡ true }
        ensures ends { Ends self.old.group call results said result self.new.group }
        ensures flag { self.new.retired ≡ self.old.retired }
        ensures sound { IsSound self.new.group }
    {
        let rest = self.group.end(call, results, said);
        let _ = self.group.journal();
        rest
    }

    fn leave(&mut self, conn: u32) -> Rest
        requires { journal.is_open self.old.group conn ≡ true }
        ensures leaves { Leaves self.old.group conn result self.new.group }
        ensures flag { self.new.retired ≡ self.old.retired }
        ensures sound { IsSound self.new.group }
    {
        let rest = self.group.leave(conn);
        let _ = self.group.journal();
        rest
    }
}

/// Cancels a call, with a count of the link words that are written.
fn cancel_counted<L: Ledger>(group: &mut Group, call: u32, blank: Blank) -> Cancelled
    requires name { blank.name ≡ L.name }
    requires parts { (blank.parts ≡ L.parts) × (0 < blank.parts) }
    ensures { Cancels group.old call result group.new }
{
    let mut steps = Steps::<L>::new(blank);
    group.cancel(call, &mut steps)
}

impl Shard {
    fn accept(&mut self, group: u32, asked: Asked) -> Result<u32, (Asked, AcceptRefusal)>
        requires there { Has self.old group }
        requires open { journal.is_open (group_of self.old group) asked.conn ≡ true }
        requires few { length asked.slots ≤ 4 }
        ensures { (l : Listed) × Touched self.old group l self.new × Accepts (group_of self.old group) asked result l.group }
    {
        self.groups[index_of(group)].accept(asked)
    }

    fn take(&mut self, group: u32, call: u32) -> Taking
        requires { Has self.old group }
        ensures { (l : Listed) × Touched self.old group l self.new × Takes (group_of self.old group) call result l.group }
    {
        self.groups[index_of(group)].take(call)
    }

    fn cancel(&mut self, group: u32, call: u32) -> Cancelled
        requires { Has self.old group }
        ensures { (l : Listed) × Touched self.old group l self.new × Cancels (group_of self.old group) call result l.group }
    {
        self.groups[index_of(group)].cancel(call)
    }

    fn orphan(&mut self, group: u32, call: u32) -> Orphaned
        requires { Has self.old group }
        ensures { (l : Listed) × Touched self.old group l self.new × Orphans (group_of self.old group) call result l.group }
    {
        self.groups[index_of(group)].orphan(call)
    }

    fn end(&mut self, group: u32, call: u32, results: Outcomes, said: Said) -> Rest
        requires there { Has self.old group }
        requires runs { journal.runs (group_of self.old group) call ≡ true }
        requires suit { journal.suit (journal.slots (group_of self.old group) call) results ≡ true }
        ensures { (l : Listed) × Touched self.old group l self.new × Ends (group_of self.old group) call results said result l.group }
    {
        self.groups[index_of(group)].end(call, results, said)
    }

    fn leave(&mut self, group: u32, conn: u32) -> Rest
        requires there { Has self.old group }
        requires open { journal.is_open (group_of self.old group) conn ≡ true }
        ensures { (l : Listed) × Touched self.old group l self.new × Leaves (group_of self.old group) conn result l.group }
    {
        self.groups[index_of(group)].leave(conn)
    }

    fn stage(&self, group: u32, call: u32) -> Stage
        requires { Has self.now group }
        ensures { result ≡ stage_of (group_of self.now group) call }
    {
        let listed = &self.groups[index_of(group)];
        listed.group.stage(call)
    }

    fn asked(&self, group: u32, call: u32) -> bool
        requires { Has self.now group }
        ensures { result ≡ (not (listed_at self.now (index_of group)).retired && is_asked (group_of self.now group) call) }
    {
        let listed = &self.groups[index_of(group)];
        !listed.retired && listed.group.asked(call)
    }

    fn last_in_way(&self, group: u32, call: u32) -> Option<u32>
        requires { Has self.now group }
        ensures { result ≡ last_ahead (group_of self.now group) call }
    {
        let listed = &self.groups[index_of(group)];
        listed.group.last_ahead(call)
    }
}

/// How many entries a take comes to.
fn entries_taken(taking: Taking) -> u64
    ensures { result ≡ taken_count taking }
{
    match taking {
        Taking::Run(_, _) | Taking::Denied(_) => 1,
        Taking::Dropped | Taking::Wait(_) => 0,
    }
}

/// How many a cancel comes to.
fn entries_marked(cancelled: Cancelled) -> u64
    ensures { result ≡ cancelled_count cancelled }
{
    match cancelled {
        Cancelled::Ended | Cancelled::Flagged => 1,
        Cancelled::Late => 0,
    }
}

/// How many an orphaning comes to.
fn entries_dropped(orphaned: Orphaned) -> u64
    ensures { result ≡ orphaned_count orphaned }
{
    match orphaned {
        Orphaned::Dropped | Orphaned::Running => 1,
        Orphaned::Late => 0,
    }
}

/// A call of a connection is accepted.
pub struct Accept {
    pub group: u32,
    pub asked: Asked,
}

impl Act for Accept {
    ghost use Rattle.hub_shard.specs.Answers.{asks_accept, gives_accept};

    type Answer = Result<u32, (Asked, AcceptRefusal)>;

    ghost asks = { asks_accept };

    ghost gives = { gives_accept };

    fn act(self, shard: &mut Shard) -> (Result<u32, (Asked, AcceptRefusal)>, u64) {
        let Accept { group, asked } = self;
        match shard.accept(group, asked) {
            Ok(call) => (Ok(call), 1),
            Err(refused) => (Err(refused), 0),
        }
    }
}

/// A call is taken.
#[derive(Clone, Copy)]
pub struct Take {
    pub group: u32,
    pub call: u32,
}

impl Act for Take {
    ghost use Rattle.hub_shard.specs.Answers.{asks_take, gives_take};

    type Answer = Taking;

    ghost asks = { asks_take };

    ghost gives = { gives_take };

    fn act(self, shard: &mut Shard) -> (Taking, u64) {
        let taking = shard.take(self.group, self.call);
        let added = entries_taken(taking);
        (taking, added)
    }
}

/// A call is cancelled.
#[derive(Clone, Copy)]
pub struct Cancel {
    pub group: u32,
    pub call: u32,
}

impl Act for Cancel {
    ghost use Rattle.hub_shard.specs.Answers.{asks_cancel, gives_cancel};

    type Answer = Cancelled;

    ghost asks = { asks_cancel };

    ghost gives = { gives_cancel };

    fn act(self, shard: &mut Shard) -> (Cancelled, u64) {
        let cancelled = shard.cancel(self.group, self.call);
        let added = entries_marked(cancelled);
        (cancelled, added)
    }
}

/// A call is orphaned.
#[derive(Clone, Copy)]
pub struct Orphan {
    pub group: u32,
    pub call: u32,
}

impl Act for Orphan {
    ghost use Rattle.hub_shard.specs.Answers.{asks_orphan, gives_orphan};

    type Answer = Orphaned;

    ghost asks = { asks_orphan };

    ghost gives = { gives_orphan };

    fn act(self, shard: &mut Shard) -> (Orphaned, u64) {
        let orphaned = shard.orphan(self.group, self.call);
        let added = entries_dropped(orphaned);
        (orphaned, added)
    }
}

/// A running call ends.
pub struct End {
    pub group: u32,
    pub call: u32,
    pub results: Outcomes,
    pub said: Said,
}

impl Act for End {
    ghost use Rattle.hub_shard.specs.Answers.{asks_end, gives_end};

    type Answer = HubRest;

    ghost asks = { asks_end };

    ghost gives = { gives_end };

    fn act(self, shard: &mut Shard) -> (HubRest, u64) {
        let End {
            group,
            call,
            results,
            said,
        } = self;
        match shard.end(group, call, results, said) {
            Rest::Stays => (HubRest::Stays, 1),
            Rest::Shut(due) => (HubRest::Shut(due, ShutKey { group }), 2),
        }
    }
}

/// A connection leaves.
#[derive(Clone, Copy)]
pub struct Leave {
    pub group: u32,
    pub conn: u32,
}

impl Act for Leave {
    ghost use Rattle.hub_shard.specs.Answers.{asks_leave, gives_leave};

    type Answer = HubRest;

    ghost asks = { asks_leave };

    ghost gives = { gives_leave };

    fn act(self, shard: &mut Shard) -> (HubRest, u64) {
        let group = self.group;
        match shard.leave(group, self.conn) {
            Rest::Stays => (HubRest::Stays, 1),
            Rest::Shut(due) => (HubRest::Shut(due, ShutKey { group }), 2),
        }
    }
}

/// It is asked where a call is.
#[derive(Clone, Copy)]
pub struct Stand {
    pub group: u32,
    pub call: u32,
}

impl Act for Stand {
    ghost use Rattle.hub_shard.specs.Answers.{asks_stand, gives_stand};

    type Answer = Stage;

    ghost asks = { asks_stand };

    ghost gives = { gives_stand };

    fn act(self, shard: &mut Shard) -> (Stage, u64) {
        (shard.stage(self.group, self.call), 0)
    }
}

/// It is asked whether a call was asked to end.
#[derive(Clone, Copy)]
pub struct Ask {
    pub group: u32,
    pub call: u32,
}

impl Act for Ask {
    ghost use Rattle.hub_shard.specs.Answers.{asks_ask, gives_ask};

    type Answer = bool;

    ghost asks = { asks_ask };

    ghost gives = { gives_ask };

    fn act(self, shard: &mut Shard) -> (bool, u64) {
        (shard.asked(self.group, self.call), 0)
    }
}

/// It is asked which call is the last in the way of one that waits.
#[derive(Clone, Copy)]
pub struct LastAhead {
    pub group: u32,
    pub call: u32,
}

impl Act for LastAhead {
    ghost use Rattle.hub_shard.specs.Answers.{asks_ahead, gives_ahead};

    type Answer = Option<u32>;

    ghost asks = { asks_ahead };

    ghost gives = { gives_ahead };

    fn act(self, shard: &mut Shard) -> (Option<u32>, u64) {
        (shard.last_in_way(self.group, self.call), 0)
    }
}
