//! The list with its queues, where some memory was taken.
ghost use Rattle.std.specs.Prelude.{◌≡◌, ℕ, ◌+◌, ◌^◌, ◌<◌, ◌≤◌, [], ◌∷◌, ◌++◌, length, IfOk, OnOk, OnErr, IfSome, MatchOption};
ghost use Rattle.wait_list.specs.Stands.{links_at};
ghost use Rattle.wait_list.specs.Waiting.{AtTicket, TicketsDiffer, StandsAt, StandsIn, AreBelow, numbers_of, front_of, first_in};

use crate::memberships::{join_queues, last_link, leave_queues};
use crate::node::{Head, Node, Queues, Spare, Ticket, give_back, make};
use crate::node_ring::NodeRing;
use crate::queue::Queue;
use crate::steps::Steps;
use std::alloc::{AllocError, Global};
use std::marker::{Brand, Model};
use std::sync::ledger::{Blank, Ledger};

/// The nodes in order, the queues that they stand in, and nodes that are not in use.
pub struct Lists {
    order: NodeRing,
    queues: Vec<Queue>,
    spare: Vec<Spare<Global>>,
    made: usize,
    alloc: Global,
}

impl Model for Lists {
    ghost use Rattle.std.specs.Prelude.{length, map};
    ghost use Rattle.std.specs.Vec.{vec_len, vec_capacity};
    ghost use Rattle.wait_list.specs.Waiting.{Waiting, standing, IsKept};

    ghost Value = { Waiting };

    ghost view = { λ w. record { nodes = map standing w.order.ring.nodes; spare = vec_len w.spare; queues = vec_len w.queues } };

    ghost invariant = { λ w. IsKept w.order.ring.nodes w.queues.items (vec_len w.spare) (vec_capacity w.spare) w.made };
}

impl Drop for Lists {
    #[tactic(auto, using(crate::proofs::OneGlobal::one_global))]
    fn drop(self) {
        let mut list = self;
        clear::<Brand>(&mut list, Blank::new(1));
        let (order, queues, spare, alloc) = list.into_parts();
        give_back(&alloc, order.into_spare());
        give_back_queues(&alloc, queues);
        give_back_nodes(&alloc, spare);
    }
}

/// Takes all nodes out, so that each block can be given back.
fn clear<L: Ledger>(list: &mut Lists, blank: Blank)
    requires name { blank.name ≡ L.name }
    requires parts { (blank.parts ≡ L.parts) × (0 < blank.parts) }
    ensures { list.new.nodes ≡ [] }
{
    let mut steps = Steps::<L>::new(blank);
    while let Some(ticket) = list.front() {
        list.remove(ticket, &mut steps);
    }
}

#[tactic(auto, using(crate::proofs::OneGlobal::one_global))]
fn give_back_queues(alloc: &Global, queues: Vec<Queue>)
    requires { (k : ℕ) → links_at queues.items k ≡ [] }
{
    let mut queues = queues;
    while let Some(queue) = queues.pop() {
        give_back(alloc, queue.into_spare());
    }
    queues.into_iter().destroy_empty();
}

#[tactic(auto, using(crate::proofs::OneGlobal::one_global))]
fn give_back_nodes(alloc: &Global, spare: Vec<Spare<Global>>) {
    let mut spare = spare;
    while let Some(node) = spare.pop() {
        give_back(alloc, node);
    }
    spare.into_iter().destroy_empty();
}

impl Lists {
    /// A list without nodes. It takes one block, for the stop.
    ///
    /// # Errors
    /// `AllocError` where the block can't be had.
    pub fn new(alloc: Global) -> Result<Lists, AllocError>
        ensures { IfOk result (λ w. w ≡ record { nodes = []; spare = 0; queues = 0 }) }
    {
        let stop = make(&alloc)?;
        Ok(Lists {
            order: NodeRing::new(stop),
            queues: Vec::new(alloc),
            spare: Vec::new(alloc),
            made: 0,
            alloc,
        })
    }

    /// How many nodes are not in use.
    pub fn spare(&self) -> usize
        ensures { result ≡ self.now.spare }
    {
        self.spare.len()
    }

    /// How many queues there are.
    pub fn queues(&self) -> usize
        ensures { result ≡ self.now.queues }
    {
        self.queues.len()
    }

    /// Takes blocks until so many nodes are free and there are so many queues. Where it fails, some may
    /// have been made.
    ///
    /// # Errors
    /// `AllocError` where a block or a queue's place can't be had.
    pub fn reserve(&mut self, nodes: usize, queues: usize) -> Result<(), AllocError>
        ensures ok { OnOk result ((nodes ≤ self.new.spare) × (queues ≤ self.new.queues)) }
        ensures same { self.new.nodes ≡ self.old.nodes }
        ensures more { (self.old.spare ≤ self.new.spare) × (self.old.queues ≤ self.new.queues) }
    {
        while self.spare() < nodes {
            self.add_node()?;
        }
        while self.queues() < queues {
            self.add_queue()?;
        }
        Ok(())
    }

    fn add_node(&mut self) -> Result<(), AllocError>
        ensures ok { OnOk result (self.new ≡ record { nodes = self.old.nodes; spare = self.old.spare + 1; queues = self.old.queues }) }
        ensures err { OnErr result (self.new ≡ self.old) }
    {
        self.spare.reserve(self.made - self.spare.len() + 1)?;
        let spare = make(&self.alloc)?;
        match self.spare.push(spare) {
            Ok(()) => {
                self.made += 1;
                Ok(())
            }
            Err(_) => unreachable!(),
        }
    }

    #[tactic(auto, using(crate::proofs::OneGlobal::one_global))]
    fn add_queue(&mut self) -> Result<(), AllocError>
        ensures ok { OnOk result (self.new ≡ record { nodes = self.old.nodes; spare = self.old.spare; queues = self.old.queues + 1 }) }
        ensures err { OnErr result (self.new ≡ self.old) }
    {
        let stop = make(&self.alloc)?;
        match self.queues.push(Queue::new(stop)) {
            Ok(()) => Ok(()),
            Err(refused) => {
                give_back(&self.alloc, refused.value.into_spare());
                Err(AllocError)
            }
        }
    }

    fn into_parts(self) -> (NodeRing, Vec<Queue>, Vec<Spare<Global>>, Global)
        requires { self.nodes ≡ [] }
        ensures nodes { result.0.ring.nodes ≡ [] }
        ensures links { (k : ℕ) → links_at result.1.items k ≡ [] }
    {
        let Lists {
            order,
            queues,
            spare,
            made: _,
            alloc,
        } = self;
        (order, queues, spare, alloc)
    }

    /// Takes a free node, and links it in at the end of the list and of the queues.
    pub fn push_back(&mut self, call: u32, of: Queues) -> Ticket
        requires spare { 0 < self.old.spare }
        requires below { AreBelow of self.old.queues }
        ensures nodes { self.new.nodes ≡ self.old.nodes ++ record { ticket = result; call = call; queues = numbers_of of } ∷ [] }
        ensures differ { TicketsDiffer self.new.nodes }
        ensures spare { self.new.spare + 1 ≡ self.old.spare }
        ensures queues { self.new.queues ≡ self.old.queues }
    {
        match self.spare.pop() {
            Some(spare) => {
                let (ticket, room, node) = join_queues(&mut self.queues, spare, call, of);
                self.order.push(room, node);
                ticket
            }
            None => unreachable!(),
        }
    }

    /// Unlinks a node from the list and from its queues; it is free then.
    pub fn remove<L: Ledger>(&mut self, ticket: Ticket, steps: &mut Steps<L>)
        requires { StandsAt self.old.nodes ticket }
        ensures nodes { AtTicket self.old.nodes ticket (λ xs n ys. self.new.nodes ≡ xs ++ ys) }
        ensures differ { TicketsDiffer self.new.nodes }
        ensures spare { (self.new.spare ≡ self.old.spare + 1) × (self.new.spare < 2 ^ 64) }
        ensures queues { self.new.queues ≡ self.old.queues }
        ensures steps { steps.new ≤ steps.old + 12 }
    {
        let (head, room) = self.order.remove(ticket.at, steps);
        match head {
            Some(node) => {
                let spare = leave_queues(&mut self.queues, ticket, room, node, steps);
                match self.spare.push(spare) {
                    Ok(()) => {}
                    Err(_) => unreachable!(),
                }
            }
            None => unreachable!(),
        }
    }

    /// The node after the stop.
    pub fn front(&self) -> Option<Ticket>
        ensures { result ≡ front_of self.now.nodes }
    {
        self.order.after(self.order.stop)
    }

    /// The node after the queue's stop, or after the last link that the given node has in it.
    pub fn next_of(&self, queue: u32, after: Option<Ticket>) -> Option<Ticket>
        requires queue { queue < self.now.queues }
        requires after { IfSome after (λ t. StandsIn self.now.nodes queue t) }
        ensures { MatchOption after (result ≡ first_in queue self.now.nodes) (λ t. AtTicket self.now.nodes t (λ xs n ys. result ≡ first_in queue ys)) }
    {
        let of = &self.queues[queue as usize];
        match after {
            None => of.after(of.stop),
            Some(ticket) => match last_link(self.order.node(ticket.at), queue) {
                Some(link) => of.after(link),
                None => unreachable!(),
            },
        }
    }

    /// What call the node is of.
    pub fn call_of(&self, ticket: Ticket) -> u32
        requires { StandsAt self.now.nodes ticket }
        ensures { AtTicket self.now.nodes ticket (λ xs n ys. result ≡ n.call) }
    {
        self.order.node(ticket.at).call
    }
}
