//! Calls on a group.
ghost use Rattle.std.specs.Prelude.{◌≡◌, ◌-◌, ◌<◌, ◌≤◌, true, false, length};
ghost use Rattle.std.specs.List.{list_any};
ghost use Rattle.handle_model.specs.Journal as journal;
ghost use Rattle.handle_model.specs.History.{History, IsSound};
ghost use Rattle.handle_model.specs.declared.entry.Entry.TheVariants.{End, Leave};
ghost use Rattle.group_core.specs.Calls.{Accepts, Takes, Cancels, Orphans, Ends};
ghost use Rattle.group_core.specs.Conns.{Joins, Leaves, Settles};
ghost use Rattle.hub_story.specs.Answers.{JoinsWhole};
ghost use Rattle.replay_groups.specs.Keeps.{Has, Known, GoesOn, Answers, Touched, TouchedSo, TouchedSettled, Counted, AddsRest, AddsSettled, group_at, left_open};

use crate::counting::{count_accept, count_cancel, count_rest, count_taking};
use crate::groups::Groups;
use group_core::{AcceptRefusal, Cancelled, Group, JoinRefusal, Orphaned, Rest, Taking};
use handle_model::{Asked, Outcomes, Said};
use replay_script::Counts;
use std::marker::Brand;
use std::sync::ledger::{Blank, Ledger};
use wait_list::Steps;

fn accept_of(
    group: &mut Group,
    counts: &mut Counts,
    asked: Asked,
) -> Result<u32, (Asked, AcceptRefusal)>
    requires is_open { journal.is_open group.old asked.conn ≡ true }
    requires few { length asked.slots ≤ 4 }
    ensures accepts { Accepts group.old asked result group.new }
    ensures sound { IsSound group.new }
    ensures counted { Counted (λ a b. Accepts a asked result b) counts.old counts.new }
{
    let result = group.accept(asked);
    count_accept(counts, &result);
    let _ = group.journal();
    result
}

fn join_of(group: &mut Group) -> Result<u32, JoinRefusal>
    requires { list_any journal.is_shut group.old.past ≡ false }
    ensures joins { Joins group.old result group.new }
    ensures sound { IsSound group.new }
{
    let result = group.join();
    let _ = group.journal();
    result
}

fn end_of(group: &mut Group, counts: &mut Counts, call: u32, results: Outcomes, said: Said) -> Rest
    requires runs { journal.runs group.old call ≡ true }
    requires suit { journal.suit (journal.slots group.old call) results ≡ true }
    ensures ends { Ends group.old call results said result group.new }
    ensures sound { IsSound group.new }
    ensures counted { AddsSettled (End call results said) result counts.old counts.new }
{
    counts.ended(results.as_slice());
    let rest = group.end(call, results, said);
    count_rest(counts, &rest, group);
    let _ = group.journal();
    rest
}

fn leave_of(group: &mut Group, counts: &mut Counts, conn: u32) -> Rest
    requires { journal.is_open group.old conn ≡ true }
    ensures leaves { Leaves group.old conn result group.new }
    ensures sound { IsSound group.new }
    ensures counted { AddsRest result counts.old counts.new }
{
    let rest = group.leave(conn);
    count_rest(counts, &rest, group);
    let _ = group.journal();
    rest
}

/// How many groups are open where so many were.
fn open_behind(count: usize, rest: &Rest) -> usize
    ensures { result ≡ left_open count rest.now }
{
    match rest {
        Rest::Stays => count,
        Rest::Shut(_) => count.saturating_sub(1),
    }
}

fn take_of(group: &mut Group, counts: &mut Counts, call: u32) -> Taking
    ensures takes { Takes group.old call result group.new }
    ensures sound { IsSound group.new }
    ensures counted { Counted (λ a b. Takes a call result b) counts.old counts.new }
{
    let taking = group.take(call);
    count_taking(counts, taking);
    let _ = group.journal();
    taking
}

fn cancel_of(group: &mut Group, counts: &mut Counts, call: u32) -> Cancelled
    ensures cancels { Cancels group.old call result group.new }
    ensures sound { IsSound group.new }
    ensures counted { Counted (λ a b. Cancels a call result b) counts.old counts.new }
{
    let cancelled = cancel_counted::<Brand>(group, call, Blank::new(1));
    count_cancel(counts, cancelled);
    let _ = group.journal();
    cancelled
}

/// Cancels a call, with a count of the link words that are written.
fn cancel_counted<L: Ledger>(group: &mut Group, call: u32, blank: Blank) -> Cancelled
    requires name { blank.name ≡ L.name }
    requires parts { (blank.parts ≡ L.parts) × (0 < blank.parts) }
    ensures { Cancels group.old call result group.new }
{
    let mut steps = Steps::<L>::new(blank);
    group.cancel(call, &mut steps)
}

fn orphan_of(group: &mut Group, call: u32) -> Orphaned
    ensures orphans { Orphans group.old call result group.new }
    ensures sound { IsSound group.new }
{
    let orphaned = group.orphan(call);
    let _ = group.journal();
    orphaned
}

/// The index of a group.
fn index_of(id: u32) -> usize
    requires { 1 ≤ id }
    ensures { result ≡ id - 1 }
{
    (id - 1) as usize
}

impl Groups {
    fn take_at(&mut self, id: u32, call: u32) -> Taking
        requires { Has self.old id }
        ensures { TouchedSo (λ a b. Takes a call result b) self.old id self.new }
    {
        take_of(&mut self.groups[index_of(id)], &mut self.counts, call)
    }

    fn cancel_at(&mut self, id: u32, call: u32) -> Cancelled
        requires { Has self.old id }
        ensures { TouchedSo (λ a b. Cancels a call result b) self.old id self.new }
    {
        cancel_of(&mut self.groups[index_of(id)], &mut self.counts, call)
    }

    fn orphan_at(&mut self, id: u32, call: u32) -> Orphaned
        requires { Has self.old id }
        ensures { (j : History) × Touched self.old id j self.old.open_groups self.new × Orphans (group_at self.old id) call result j × (self.new.counts ≡ self.old.counts) }
    {
        orphan_of(&mut self.groups[index_of(id)], call)
    }

    /// Takes a call of a group, where it waits and nothing is in its way, or denies it for its handles. It takes no memory.
    pub fn take(&mut self, id: u32, call: u32) -> Taking
        requires there { Has self.old id }
        requires goes_on { GoesOn self.old id }
        ensures { Answers self.old id (λ j k. Takes j call result k) self.new }
    {
        self.take_at(id, call)
    }

    /// Cancels a call of a group: it ends where it waits, and is asked to end where it runs. It takes no memory.
    pub fn cancel(&mut self, id: u32, call: u32) -> Cancelled
        requires there { Has self.old id }
        requires goes_on { GoesOn self.old id }
        ensures { Answers self.old id (λ j k. Cancels j call result k) self.new }
    {
        self.cancel_at(id, call)
    }

    /// Orphans a call of a group: it ends where it waits, and its answer is not sent where it runs. It takes no memory.
    pub fn orphan(&mut self, id: u32, call: u32) -> Orphaned
        requires there { Has self.old id }
        requires goes_on { GoesOn self.old id }
        ensures { Answers self.old id (λ j k. Orphans j call result k) self.new }
    {
        self.orphan_at(id, call)
    }

    fn accept_at(&mut self, id: u32, asked: Asked) -> Result<u32, (Asked, AcceptRefusal)>
        requires there { Has self.old id }
        requires is_open { journal.is_open (group_at self.old id) asked.conn ≡ true }
        requires few { length asked.slots ≤ 4 }
        ensures { TouchedSo (λ a b. Accepts a asked result b) self.old id self.new }
    {
        accept_of(&mut self.groups[index_of(id)], &mut self.counts, asked)
    }

    fn end_at(&mut self, id: u32, call: u32, results: Outcomes, said: Said) -> Rest
        requires there { Has self.old id }
        requires runs { journal.runs (group_at self.old id) call ≡ true }
        requires suit { journal.suit (journal.slots (group_at self.old id) call) results ≡ true }
        ensures { TouchedSettled (λ a b. Ends a call results said result b) (End call results said) result self.old id self.new }
    {
        let group = &mut self.groups[index_of(id)];
        let rest = end_of(group, &mut self.counts, call, results, said);
        self.open_groups = open_behind(self.open_groups, &rest);
        rest
    }

    fn leave_at(&mut self, id: u32, conn: u32) -> Rest
        requires there { Has self.old id }
        requires is_open { journal.is_open (group_at self.old id) conn ≡ true }
        ensures { (j : History) × Touched self.old id j (left_open self.old.open_groups result) self.new × Leaves (group_at self.old id) conn result j × AddsRest result self.old.counts self.new.counts }
    {
        let group = &mut self.groups[index_of(id)];
        let rest = leave_of(group, &mut self.counts, conn);
        self.open_groups = open_behind(self.open_groups, &rest);
        rest
    }

    /// Accepts a call of a connection that is open in the group, or refuses it at a limit.
    ///
    /// # Errors
    ///
    /// The call as it was asked, with the first of `Calls`, `Handles` and `Numbers` whose limit is
    /// reached, or with `Memory` where there is no memory for it.
    pub fn accept(&mut self, id: u32, asked: Asked) -> Result<u32, (Asked, AcceptRefusal)>
        requires there { Has self.old id }
        requires is_open { Known self.old id (λ j. journal.is_open j asked.conn ≡ true) }
        requires few { length asked.slots ≤ 4 }
        ensures { Answers self.old id (λ j k. Accepts j asked result k) self.new }
    {
        self.accept_at(id, asked)
    }

    /// A running call of a group ends, with these results and this answer; and the group ends where that is then due. It takes
    /// no memory.
    pub fn end(&mut self, id: u32, call: u32, results: Outcomes, said: Said) -> Rest
        requires there { Has self.old id }
        requires runs { Known self.old id (λ j. (journal.runs j call ≡ true) × (journal.suit (journal.slots j call) results ≡ true)) }
        ensures { Answers self.old id (λ j k. Settles j (End call results said) result k) self.new }
    {
        self.end_at(id, call, results, said)
    }

    /// A connection leaves its group; and the group ends where that is then due. It takes no memory.
    pub fn leave(&mut self, id: u32, conn: u32) -> Rest
        requires there { Has self.old id }
        requires is_open { Known self.old id (λ j. journal.is_open j conn ≡ true) }
        ensures { Answers self.old id (λ j k. Settles j (Leave conn) result k) self.new }
    {
        self.leave_at(id, conn)
    }

    fn join_at(&mut self, id: u32) -> Result<u32, JoinRefusal>
        requires there { Has self.old id }
        requires unshut { list_any journal.is_shut (group_at self.old id).past ≡ false }
        ensures { (j : History) × Touched self.old id j self.old.open_groups self.new × Joins (group_at self.old id) result j × (self.new.counts ≡ self.old.counts) }
    {
        join_of(&mut self.groups[index_of(id)])
    }

    /// A connection joins a group, and has this number there; or it is refused at a limit.
    ///
    /// # Errors
    ///
    /// `TooMany` or `Numbers` where that limit is reached, and `Memory` where there is no memory
    /// for it.
    pub fn join(&mut self, id: u32) -> Result<u32, JoinRefusal>
        requires there { Has self.old id }
        requires goes_on { GoesOn self.old id }
        ensures { Answers self.old id (λ j k. JoinsWhole j result k) self.new }
    {
        self.join_at(id)
    }
}
