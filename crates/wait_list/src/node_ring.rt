//! The list: a ring whose links carry the nodes.
ghost use Rattle.std.specs.Prelude.{◌≡◌, ◌+◌, [], ◌∷◌, ◌++◌, Some, None, IsSome, MatchOption};
ghost use Rattle.std.specs.List.{AllByRecursion};
ghost use Rattle.wait_list.specs.Linked.{linked, IsAt, AtLink, first_val};
ghost use Rattle.wait_list.specs.Block.{IsWhole};
ghost use Rattle.wait_list.specs.Fronts.{ticket_of_first, IsFull};

use crate::link::{LinkPlace, LinkRoom};
use crate::node::{BlockTitle, Head, Node, Side, Spare, Ticket};
use crate::ring::Ring;
use crate::steps::Steps;
use std::alloc::Global;
use std::sync::ledger::Ledger;

/// The ring, and the block in which its stop lies. The other links of that block stay unused.
pub struct NodeRing {
    pub(crate) ring: Ring<Head>,
    pub(crate) stop: LinkPlace,
    at: LinkPlace,
    a: LinkRoom<Side>,
    b: LinkRoom<Side>,
    c: LinkRoom<Side>,
    d: LinkRoom<Side>,
    pub(crate) title: BlockTitle<Global>,
    ghost whole: { IsWhole at.ptr title.at stop.ptr a.ptr b.ptr c.ptr d.ptr },
    ghost stops: { ring.stop ≡ linked stop.ptr None },
}

impl NodeRing {
    pub(crate) fn new(spare: Spare<Global>) -> NodeRing
        ensures { result.ring.nodes ≡ [] }
    {
        let Spare {
            at,
            head,
            a,
            b,
            c,
            d,
            title,
        } = spare;
        let (ring, stop) = Ring::new(head.fill(None));
        NodeRing {
            ring,
            stop,
            at,
            a,
            b,
            c,
            d,
            title,
        }
    }

    pub(crate) fn into_spare(self) -> Spare<Global>
        requires { self.ring.nodes ≡ [] }
        ensures { result.title.alloc ≡ self.title.alloc }
    {
        let NodeRing {
            ring,
            stop,
            at,
            a,
            b,
            c,
            d,
            title,
        } = self;
        let (none, head) = ring.into_stop(stop).take();
        match none {
            None => {}
            Some(_) => unreachable!(),
        }
        Spare {
            at,
            head,
            a,
            b,
            c,
            d,
            title,
        }
    }

    pub(crate) fn push(&mut self, room: LinkRoom<Head>, node: Node)
        ensures { self.new.ring.nodes ≡ self.old.ring.nodes ++ linked room.ptr (Some node) ∷ [] }
    {
        self.ring.link(self.stop, room.fill(Some(node)));
    }

    /// Unlinks a node: two link words are written.
    pub(crate) fn remove<L: Ledger>(
        &mut self,
        at: LinkPlace,
        steps: &mut Steps<L>,
    ) -> (Head, LinkRoom<Head>)
        requires { IsAt self.old.ring.nodes at.ptr }
        ensures steps { steps.new ≡ steps.old + 2 }
        ensures nodes { AtLink self.old.ring.nodes at.ptr (λ xs n ys. (self.new.ring.nodes ≡ xs ++ ys) × (n ≡ linked result.1.ptr result.0)) }
    {
        let node = self.ring.unlink(at);
        steps.tick();
        steps.tick();
        node.take()
    }

    /// The node of the next link.
    pub(crate) fn after(&self, link: LinkPlace) -> Option<Ticket>
        requires there { IsAt (self.now.ring.stop ∷ self.now.ring.nodes) link.ptr }
        requires full { IsFull self.now.ring.nodes }
        ensures { AtLink (self.now.ring.stop ∷ self.now.ring.nodes) link.ptr (λ xs n ys. result ≡ ticket_of_first ys) }
    {
        let next = self.ring.next(link);
        match self.ring.read(next) {
            Some(_) => Some(Ticket { at: next }),
            None => None,
        }
    }

    pub(crate) fn node(&self, at: LinkPlace) -> &Node
        requires there { IsAt self.now.ring.nodes at.ptr }
        requires full { IsFull self.now.ring.nodes }
        ensures { AtLink self.now.ring.nodes at.ptr (λ xs n ys. n.val ≡ Some result.now) }
    {
        match self.ring.read(at) {
            Some(node) => node,
            None => unreachable!(),
        }
    }
}
