//! A queue: a ring whose links carry tickets, each that of the node in which it lies.
ghost use Rattle.std.specs.Prelude.{◌≡◌, ◌+◌, [], ◌∷◌, ◌++◌, Some, None};
ghost use Rattle.wait_list.specs.Linked.{linked, IsAt, AtLink, first_val};
ghost use Rattle.wait_list.specs.Block.{IsWhole};

use crate::link::{LinkPlace, LinkRoom};
use crate::node::{BlockTitle, Head, Side, Spare, Ticket};
use crate::ring::Ring;
use crate::steps::Steps;
use std::alloc::Global;
use std::sync::ledger::Ledger;

/// The ring, and the block in which its stop lies. The other links of that block stay unused.
pub struct Queue {
    pub(crate) ring: Ring<Side>,
    pub(crate) stop: LinkPlace,
    at: LinkPlace,
    head: LinkRoom<Head>,
    b: LinkRoom<Side>,
    c: LinkRoom<Side>,
    d: LinkRoom<Side>,
    pub(crate) title: BlockTitle<Global>,
    ghost whole: { IsWhole at.ptr title.at head.ptr stop.ptr b.ptr c.ptr d.ptr },
    ghost stops: { ring.stop ≡ linked stop.ptr None },
}

impl Queue {
    pub(crate) fn new(spare: Spare<Global>) -> Queue
        ensures nodes { result.ring.nodes ≡ [] }
        ensures alloc { result.title.alloc ≡ spare.title.alloc }
    {
        let Spare {
            at,
            head,
            a,
            b,
            c,
            d,
            title,
        } = spare;
        let (ring, stop) = Ring::new(a.fill(None));
        Queue {
            ring,
            stop,
            at,
            head,
            b,
            c,
            d,
            title,
        }
    }

    pub(crate) fn into_spare(self) -> Spare<Global>
        requires { self.ring.nodes ≡ [] }
        ensures { result.title.alloc ≡ self.title.alloc }
    {
        let Queue {
            ring,
            stop,
            at,
            head,
            b,
            c,
            d,
            title,
        } = self;
        let (_, a) = ring.into_stop(stop).take();
        Spare {
            at,
            head,
            a,
            b,
            c,
            d,
            title,
        }
    }

    /// Links a node in at the end, by one of its links.
    pub(crate) fn push(&mut self, room: LinkRoom<Side>, ticket: Ticket) -> LinkPlace
        ensures nodes { self.new.ring.nodes ≡ self.old.ring.nodes ++ linked room.ptr (Some ticket) ∷ [] }
        ensures place { result.ptr ≡ room.ptr }
        ensures alloc { self.new.title.alloc ≡ self.old.title.alloc }
    {
        self.ring.link(self.stop, room.fill(Some(ticket)))
    }

    /// Unlinks a node: two link words are written.
    pub(crate) fn remove<L: Ledger>(
        &mut self,
        link: LinkPlace,
        steps: &mut Steps<L>,
    ) -> LinkRoom<Side>
        requires { IsAt self.old.ring.nodes link.ptr }
        ensures nodes { AtLink self.old.ring.nodes link.ptr (λ xs n ys. (self.new.ring.nodes ≡ xs ++ ys) × (n.at ≡ result.ptr)) }
        ensures alloc { self.new.title.alloc ≡ self.old.title.alloc }
        ensures steps { steps.new ≡ steps.old + 2 }
    {
        let (_, room) = self.ring.unlink(link).take();
        steps.tick();
        steps.tick();
        room
    }

    /// The node of the next link.
    pub(crate) fn after(&self, link: LinkPlace) -> Option<Ticket>
        requires { IsAt (self.now.ring.stop ∷ self.now.ring.nodes) link.ptr }
        ensures { AtLink (self.now.ring.stop ∷ self.now.ring.nodes) link.ptr (λ xs n ys. result ≡ first_val None ys) }
    {
        let next = self.ring.next(link);
        *self.ring.read(next)
    }
}
