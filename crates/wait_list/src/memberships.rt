//! How a node comes into its queues, and out of them.
ghost use Rattle.std.specs.Prelude.{◌≡◌, ℕ, ◌+◌, ◌<◌, ◌≤◌, [], ◌∷◌, ◌++◌, length, List, Option, Some, IfSome, MatchOption};
ghost use Rattle.wait_list.specs.Linked.{Linked, linked};
ghost use Rattle.wait_list.specs.Placed.{place_of};
ghost use Rattle.wait_list.specs.Stands.{member_in, number_of, links_at, CanLeave};
ghost use Rattle.wait_list.specs.Waiting.{links_of_node, AreBelow};
ghost use Rattle.wait_list.specs.declared.node.Ticket.{Ticket};

use crate::link::{LinkPlace, LinkRoom};
use crate::node::{Head, Membership, Node, Queues, Side, Spare, Ticket};
use crate::queue::Queue;
use crate::steps::Steps;
use std::alloc::Global;
use std::sync::ledger::Ledger;

/// Links a node in at the end of a queue, by the link that `room` is for; without a number, the link
/// stays unused.
pub(crate) fn enter(
    queues: &mut [Queue],
    number: Option<u32>,
    ticket: Ticket,
    room: LinkRoom<Side>,
) -> Membership
    requires { IfSome number (λ k. k < length queues.old) }
    ensures place { place_of result ≡ room.ptr }
    ensures number { number_of result ≡ number }
    ensures links { (k : ℕ) → links_at queues.new k ≡ links_at queues.old k ++ member_in k ticket result }
{
    match number {
        None => Membership::Idle(room),
        Some(k) => {
            let queue = &mut queues[k as usize];
            let link = queue.push(room, ticket);
            Membership::In(k, link)
        }
    }
}

/// Unlinks what one of a node's links is in, if anything.
pub(crate) fn leave<L: Ledger>(
    queues: &mut [Queue],
    stand: Membership,
    steps: &mut Steps<L>,
) -> LinkRoom<Side>
    requires { CanLeave queues.old stand }
    ensures place { result.ptr ≡ place_of stand }
    ensures steps { steps.new ≤ steps.old + 2 }
    ensures links { (k : ℕ) (t : Ticket) (us vs : List (Linked (Option Ticket))) → links_at queues.old k ≡ us ++ (member_in k t stand ++ vs) → links_at queues.new k ≡ us ++ vs }
{
    match stand {
        Membership::Idle(room) => room,
        Membership::In(k, link) => {
            let queue = &mut queues[k as usize];
            queue.remove(link, steps)
        }
    }
}

/// Links a node into its queues. What the list's own link is to carry is the answer.
pub(crate) fn join_queues(
    queues: &mut [Queue],
    spare: Spare<Global>,
    call: u32,
    of: Queues,
) -> (Ticket, LinkRoom<Head>, Node)
    requires { AreBelow of (length queues.old) }
    ensures at { (result.1.ptr ≡ result.0.at.ptr) × (result.2.title.at ≡ result.0.at.ptr) }
    ensures call { result.2.call ≡ call }
    ensures numbers { (number_of result.2.a ≡ of.a) × (number_of result.2.b ≡ of.b) × (number_of result.2.c ≡ of.c) × (number_of result.2.d ≡ of.d) }
    ensures links { (k : ℕ) → links_at queues.new k ≡ links_at queues.old k ++ links_of_node k result.0 result.2 }
{
    let Spare {
        at,
        head,
        a,
        b,
        c,
        d,
        title,
    } = spare;
    let ticket = Ticket { at };
    let a = enter(queues, of.a, ticket, a);
    let b = enter(queues, of.b, ticket, b);
    let c = enter(queues, of.c, ticket, c);
    let d = enter(queues, of.d, ticket, d);
    let node = Node {
        call,
        a,
        b,
        c,
        d,
        title,
    };
    (ticket, head, node)
}

/// Unlinks a node from its queues, after it was unlinked from the list.
pub(crate) fn leave_queues<L: Ledger>(
    queues: &mut [Queue],
    ticket: Ticket,
    head: LinkRoom<Head>,
    node: Node,
    steps: &mut Steps<L>,
) -> Spare<Global>
    requires at { (head.ptr ≡ ticket.at.ptr) × (node.title.at ≡ ticket.at.ptr) }
    requires links { (us : (k : ℕ) → List (Linked (Option Ticket))) × (vs : (k : ℕ) → List (Linked (Option Ticket))) × ((k : ℕ) → links_at queues.old k ≡ us k ++ (links_of_node k ticket node ++ vs k)) }
    ensures steps { steps.new ≤ steps.old + 8 }
    ensures links { (k : ℕ) (us vs : List (Linked (Option Ticket))) → links_at queues.old k ≡ us ++ (links_of_node k ticket node ++ vs) → links_at queues.new k ≡ us ++ vs }
{
    let Node {
        call: _,
        a,
        b,
        c,
        d,
        title,
    } = node;
    let a = leave(queues, a, steps);
    let b = leave(queues, b, steps);
    let c = leave(queues, c, steps);
    let d = leave(queues, d, steps);
    Spare {
        at: ticket.at,
        head,
        a,
        b,
        c,
        d,
        title,
    }
}

/// The link, if it is in that queue.
pub(crate) fn link_in(stand: &Membership, queue: u32) -> Option<LinkPlace>
    ensures { (t : Ticket) → MatchOption result (member_in queue t stand.now ≡ []) (λ p. member_in queue t stand.now ≡ linked p.ptr (Some t) ∷ []) }
{
    match stand {
        Membership::In(k, link) => { if *k == queue { Some(*link) } else { None } }
        Membership::Idle(_) => None,
    }
}

/// The last of the links that the node has in that queue.
pub(crate) fn last_link(node: &Node, queue: u32) -> Option<LinkPlace>
    ensures { (t : Ticket) → MatchOption result (links_of_node queue t node.now ≡ []) (λ p. (us : List (Linked (Option Ticket))) × (links_of_node queue t node.now ≡ us ++ linked p.ptr (Some t) ∷ [])) }
{
    if let Some(link) = link_in(&node.d, queue) {
        return Some(link);
    }
    if let Some(link) = link_in(&node.c, queue) {
        return Some(link);
    }
    if let Some(link) = link_in(&node.b, queue) {
        return Some(link);
    }
    link_in(&node.a, queue)
}
