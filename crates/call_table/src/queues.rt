//! The queues that calls stand in: one list of all, and for each handle the queue of its last bits.
ghost use Rattle.std.specs.Prelude.{◌≡◌, ℕ, ◌+◌, ◌<◌, ◌≤◌, ◌++◌, ◌∷◌, [], length, slice_get, IfSome, OnOk, OnErr};
ghost use Rattle.std.specs.List.{remove};
ghost use Rattle.handle_model.specs.Slots.{named};
ghost use Rattle.wait_list.specs.Waiting.{AreBelow, numbers_of};
ghost use Rattle.call_table.specs.Queues as spec;

use handle_model::Slot;
use rpc_base::NoMemory;
use std::alloc::Global;
use std::collections::VecDeque;
use std::marker::Model;
use std::sync::ledger::Ledger;
use wait_list::{Queues, Steps, Ticket, WaitList};

/// How many queues there are.
const QUEUES: usize = 64;

/// The calls by rising number, in one list of linked nodes, and each in the queues of its handles.
#[derive(Drop)]
pub struct CallQueues {
    waits: WaitList,
    tickets: VecDeque<Ticket>,
    room: usize,
}

impl Model for CallQueues {
    ghost use Rattle.std.specs.Prelude.{map};
    ghost use Rattle.call_table.specs.Queues.{QueuedCalls, IsTicketed, queued_at};

    ghost Value = { QueuedCalls };

    ghost view = { λ q. record { calls = map queued_at q.waits.nodes; room = q.room } };

    ghost invariant = { λ q. IsTicketed q.waits q.tickets q.room };
}

impl CallQueues {
    /// Without calls. It takes no memory.
    pub fn new(alloc: Global) -> CallQueues
        ensures { result ≡ record { calls = []; room = 0 } }
    {
        CallQueues {
            waits: WaitList::new(alloc),
            tickets: VecDeque::new(alloc),
            room: 0,
        }
    }

    /// Makes room for `n` calls more.
    ///
    /// # Errors
    /// `NoMemory` where memory runs out; everything is then as before.
    pub fn reserve(&mut self, n: usize) -> Result<(), NoMemory>
        ensures ok { OnOk result (n ≤ self.new.room) }
        ensures more { self.old.room ≤ self.new.room }
        ensures same { self.new.calls ≡ self.old.calls }
        ensures err { OnErr result (self.new ≡ self.old) }
    {
        if n <= self.room {
            return Ok(());
        }
        self.tickets.reserve(n)?;
        self.waits.reserve(n, QUEUES)?;
        self.room = n;
        Ok(())
    }

    /// A call comes, the last of all and of each of its queues.
    pub fn join(&mut self, call: u32, slots: &[Slot])
        requires room { 0 < self.old.room }
        requires few { length slots.now ≤ 4 }
        ensures calls { self.new.calls ≡ self.old.calls ++ record { call = call; queues = spec.queues_of slots.now } ∷ [] }
        ensures room { self.new.room + 1 ≡ self.old.room }
    {
        let ticket = self.waits.push_back(call, queues_of(slots));
        self.room -= 1;
        self.tickets.push_back(ticket).unwrap();
    }

    /// The call at a place goes, from its queues too, by at most 12 writes of link words.
    pub fn remove<L: Ledger>(&mut self, at: usize, steps: &mut Steps<L>)
        requires { at < length self.old.calls }
        ensures calls { self.new.calls ≡ remove self.old.calls at }
        ensures room { self.new.room ≡ self.old.room }
        ensures steps { steps.new ≤ steps.old + 12 }
    {
        let ticket = self.tickets.remove(at).unwrap();
        self.waits.remove(ticket, steps);
    }

    /// The number of the first call in a queue, or of the next one there after the call at a place.
    pub fn next(&self, queue: u32, after: Option<usize>) -> Option<u32>
        requires some { 0 < length self.now.calls }
        requires queue { queue < 64 }
        requires after { IfSome after (λ i. (k : ℕ) × spec.IsIn queue self.now.calls k i) }
        ensures { spec.IsNext queue self.now.calls (spec.after_place after) result }
    {
        let ticket = ticket_at(&self.tickets, after);
        match self.waits.next_of(queue, ticket) {
            Some(next) => Some(self.waits.call_of(next)),
            None => None,
        }
    }
}

/// The ticket at a place, where there is one.
fn ticket_at(tickets: &VecDeque<Ticket>, at: Option<usize>) -> Option<Ticket>
    requires { IfSome at (λ i. i < length tickets.now.items) }
    ensures { spec.TicketAt tickets.now.items at result }
{
    match at {
        Some(at) => Some(tickets[at]),
        None => None,
    }
}

/// The queue of the handle that a slot names, by the last bits of the handle's identifier.
pub fn queue_of(slot: &Slot) -> Option<u32>
    ensures queue { result ≡ spec.queue_of (named slot.now) }
    ensures few { IfSome result (λ q. q < 64) }
{
    match slot.named() {
        Some(wire) => Some((wire.id % QUEUES as u128) as u32),
        None => None,
    }
}

/// The queues of the handles that at most four slots name.
fn queues_of(slots: &[Slot]) -> Queues
    requires { length slots.now ≤ 4 }
    ensures numbers { numbers_of result ≡ spec.queues_of slots.now }
    ensures below { AreBelow result 64 }
{
    Queues {
        a: queue_at(slots, 0),
        b: queue_at(slots, 1),
        c: queue_at(slots, 2),
        d: queue_at(slots, 3),
    }
}

/// The queue of the slot at an index.
fn queue_at(slots: &[Slot], at: usize) -> Option<u32>
    ensures queue { result ≡ spec.queue_in (slice_get slots.now at) }
    ensures few { IfSome result (λ q. q < 64) }
{
    match slots.get(at) {
        Some(slot) => queue_of(slot),
        None => None,
    }
}
