//! Links in a ring, which begins and ends at a stop. A ring has two link words for each two neighbours,
//! so each function reads and writes a fixed number of words.
ghost use Rattle.std.specs.Prelude.{◌≡◌, List, [], ◌∷◌, ◌++◌};
ghost use Rattle.std.specs.Coded.{prop_coded};
ghost use denote.RawPtr.{Ptr};
ghost use Rattle.lru.specs.Linked.{IsApart-prop};
ghost use Rattle.wait_list.specs.Linked.{Linked, linked, places, AreApart, IsAt, AtLink, first_of};
ghost use Rattle.wait_list.specs.Ownership.{ring_owns, ring_lent};

use crate::link::{Link, LinkPlace, LooseLink};
use std::marker::{Model, PhantomData, Send, Sync};

/// Owns the links, the stop among them. It has no bytes: whoever has it keeps the address of the stop.
pub struct Ring<T> {
    mark: PhantomData<*mut Link<T>>,
    ghost stop: { Linked T },
    ghost nodes: { List (Linked T) },
    ghost apart: { AreApart (stop ∷ nodes) } by { prop_coded (IsApart-prop (places (stop ∷ nodes))) },
}

impl<T> Model for Ring<T> {
    ghost also_owns = { λ r. ring_owns T.row r.stop r.nodes };

    ghost also_shares = { λ r _ κ. ring_lent T.row r.stop r.nodes κ };
}

unsafe impl<T: Send> Send for Ring<T> {}

unsafe impl<T: Sync> Sync for Ring<T> {}

impl<T> Ring<T> {
    /// A ring of the stop alone, and its address.
    pub(crate) fn new(stop: LooseLink<T>) -> (Ring<T>, LinkPlace)
        ensures { (result.0.stop ≡ linked stop.ptr stop.val) × (result.0.nodes ≡ []) × (result.1.ptr ≡ stop.ptr) }
    {
        let LooseLink { ptr: stop } = stop;
        unsafe {
            (*stop).prev = stop;
            (*stop).next = stop;
        }
        let at = LinkPlace {
            ptr: stop as *mut u8,
        };
        (Ring { mark: PhantomData }, at)
    }

    /// Gives the stop of an empty ring back.
    pub(crate) fn into_stop(self, stop: LinkPlace) -> LooseLink<T>
        requires { (stop.ptr ≡ self.stop.at) × (self.nodes ≡ []) }
        ensures { (result.ptr ≡ self.stop.at) × (result.val ≡ self.stop.val) }
    {
        let Ring { mark: _ } = self;
        let stop = stop.ptr as *mut Link<T>;
        LooseLink { ptr: stop }
    }

    /// Links it in before the stop, which is at the end.
    pub(crate) fn link(&mut self, stop: LinkPlace, node: LooseLink<T>) -> LinkPlace
        requires { stop.ptr ≡ self.old.stop.at }
        ensures stop { self.new.stop ≡ self.old.stop }
        ensures nodes { (self.new.nodes ≡ self.old.nodes ++ linked node.ptr node.val ∷ []) × (result.ptr ≡ node.ptr) }
    {
        let stop = stop.ptr as *mut Link<T>;
        let LooseLink { ptr: node } = node;
        unsafe {
            (*node).next = stop;
            (*node).prev = (*stop).prev;
            (*stop).prev = node;
            (*(*node).prev).next = node;
        }
        LinkPlace {
            ptr: node as *mut u8,
        }
    }

    /// Unlinks it: each of its neighbours gets the other as its own.
    pub(crate) fn unlink(&mut self, node: LinkPlace) -> LooseLink<T>
        requires { IsAt self.old.nodes node.ptr }
        ensures stop { self.new.stop ≡ self.old.stop }
        ensures nodes { AtLink self.old.nodes node.ptr (λ xs n ys. (self.new.nodes ≡ xs ++ ys) × (n ≡ linked result.ptr result.val)) }
    {
        let node = node.ptr as *mut Link<T>;
        unsafe {
            (*(*node).prev).next = (*node).next;
            (*(*node).next).prev = (*node).prev;
        }
        LooseLink { ptr: node }
    }

    /// The address of the next link.
    pub(crate) fn next(&self, node: LinkPlace) -> LinkPlace
        requires { IsAt (self.now.stop ∷ self.now.nodes) node.ptr }
        ensures { AtLink (self.now.stop ∷ self.now.nodes) node.ptr (λ xs n ys. result.ptr ≡ first_of self.now.stop.at ys) }
    {
        let node = node.ptr as *mut Link<T>;
        let next = unsafe { (*node).next };
        LinkPlace {
            ptr: next as *mut u8,
        }
    }

    /// What the link carries.
    pub(crate) fn read(&self, node: LinkPlace) -> &T
        requires { IsAt (self.now.stop ∷ self.now.nodes) node.ptr }
        ensures { AtLink (self.now.stop ∷ self.now.nodes) node.ptr (λ xs n ys. result.now ≡ n.val) }
    {
        let node = node.ptr as *mut Link<T>;
        unsafe { &(*node).val }
    }
}
