//! The list of waiting calls.
ghost use Rattle.std.specs.Prelude.{◌≡◌, ℕ, ◌+◌, ◌<◌, ◌≤◌, [], ◌∷◌, ◌++◌, length, OnOk, OnErr, IfSome, MatchOption};
ghost use Rattle.wait_list.specs.Waiting.{AtTicket, TicketsDiffer, StandsAt, StandsIn, AreBelow, numbers_of, front_of, first_in};

use crate::list::Lists;
use crate::node::{Queues, Ticket};
use crate::steps::Steps;
use rpc_base::NoMemory;
use std::alloc::Global;
use std::marker::Model;
use std::sync::ledger::Ledger;

/// Calls in order, each of which stands in up to four queues as well. A node is one block of memory,
/// linked into the list and into each of its queues, so it is taken out at a fixed cost.
#[derive(Drop)]
pub struct WaitList {
    lists: Option<Lists>,
    spare: usize,
    queues: usize,
    alloc: Global,
}

impl Model for WaitList {
    ghost use Rattle.std.specs.Prelude.{◌≤◌};
    ghost use Rattle.wait_list.specs.Waiting.{Waiting, waiting_in};

    ghost Value = { Waiting };

    ghost view = { λ w. record { nodes = (waiting_in w.lists).nodes; spare = w.spare; queues = w.queues } };

    ghost invariant = { λ w. (w.spare ≤ (waiting_in w.lists).spare) × (w.queues ≤ (waiting_in w.lists).queues) };
}

impl WaitList {
    /// A list of no nodes. It takes no memory.
    pub fn new(alloc: Global) -> WaitList
        ensures { result ≡ record { nodes = []; spare = 0; queues = 0 } }
    {
        WaitList {
            lists: None,
            spare: 0,
            queues: 0,
            alloc,
        }
    }

    /// How many more nodes may be pushed before memory is taken.
    pub fn spare(&self) -> usize
        ensures { result ≡ self.now.spare }
    {
        self.spare
    }

    /// How many queues there are.
    pub fn queues(&self) -> usize
        ensures { result ≡ self.now.queues }
    {
        self.queues
    }

    /// Makes room for `nodes` more nodes, and for as many as `queues` queues in all. Nothing else takes
    /// memory. Where it fails, everything stands as before.
    ///
    /// # Errors
    /// `NoMemory` where memory runs out.
    pub fn reserve(&mut self, nodes: usize, queues: usize) -> Result<(), NoMemory>
        ensures ok { OnOk result ((nodes ≤ self.new.spare) × (queues ≤ self.new.queues)) }
        ensures same { self.new.nodes ≡ self.old.nodes }
        ensures more { (self.old.spare ≤ self.new.spare) × (self.old.queues ≤ self.new.queues) }
        ensures err { OnErr result (self.new ≡ self.old) }
    {
        match &mut self.lists {
            Some(lists) => lists.reserve(nodes, queues)?,
            None => {
                let mut lists = Lists::new(self.alloc)?;
                lists.reserve(nodes, queues)?;
                self.lists = Some(lists);
            }
        }
        self.spare = self.spare.max(nodes);
        self.queues = self.queues.max(queues);
        Ok(())
    }

    /// Puts a node at the end of the list and of each of the queues.
    pub fn push_back(&mut self, call: u32, of: Queues) -> Ticket
        requires spare { 0 < self.old.spare }
        requires below { AreBelow of self.old.queues }
        ensures nodes { self.new.nodes ≡ self.old.nodes ++ record { ticket = result; call = call; queues = numbers_of of } ∷ [] }
        ensures differ { TicketsDiffer self.new.nodes }
        ensures spare { self.new.spare + 1 ≡ self.old.spare }
        ensures queues { self.new.queues ≡ self.old.queues }
    {
        match &mut self.lists {
            Some(lists) => {
                self.spare -= 1;
                lists.push_back(call, of)
            }
            None => unreachable!(),
        }
    }

    /// Takes a node out of the list and of its queues, by at most 12 writes of link words.
    pub fn remove<L: Ledger>(&mut self, ticket: Ticket, steps: &mut Steps<L>)
        requires { StandsAt self.old.nodes ticket }
        ensures nodes { AtTicket self.old.nodes ticket (λ xs n ys. self.new.nodes ≡ xs ++ ys) }
        ensures differ { TicketsDiffer self.new.nodes }
        ensures spare { self.new.spare ≡ self.old.spare + 1 }
        ensures queues { self.new.queues ≡ self.old.queues }
        ensures steps { steps.new ≤ steps.old + 12 }
    {
        match &mut self.lists {
            Some(lists) => {
                lists.remove(ticket, steps);
                self.spare += 1;
            }
            None => unreachable!(),
        }
    }

    /// The first node of the list.
    pub fn front(&self) -> Option<Ticket>
        ensures { result ≡ front_of self.now.nodes }
    {
        match &self.lists {
            Some(lists) => lists.front(),
            None => None,
        }
    }

    /// The first node of a queue; where a node of that queue is given, the one that follows it there.
    pub fn next_of(&self, queue: u32, after: Option<Ticket>) -> Option<Ticket>
        requires queue { queue < self.now.queues }
        requires after { IfSome after (λ t. StandsIn self.now.nodes queue t) }
        ensures { MatchOption after (result ≡ first_in queue self.now.nodes) (λ t. AtTicket self.now.nodes t (λ xs n ys. result ≡ first_in queue ys)) }
    {
        match &self.lists {
            Some(lists) => lists.next_of(queue, after),
            None => unreachable!(),
        }
    }

    /// The call of a node.
    pub fn call_of(&self, ticket: Ticket) -> u32
        requires { StandsAt self.now.nodes ticket }
        ensures { AtTicket self.now.nodes ticket (λ xs n ys. result ≡ n.call) }
    {
        match &self.lists {
            Some(lists) => lists.call_of(ticket),
            None => unreachable!(),
        }
    }
}
