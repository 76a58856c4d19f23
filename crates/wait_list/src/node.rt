//! A node is one block of memory, in which five links lie: one for the list and four for queues.
ghost use Rattle.std.specs.Prelude.{◌≡◌, IfOk, ⊤};
ghost use base.Fml.{ftrue};
ghost use denote.RawPtr.{Ptr};
ghost use Rattle.wait_list.specs.Block.{title_owns, IsWhole};
ghost use Rattle.wait_list.specs.Placed.{ArePlaced};

use crate::link::{Link, LinkPlace, LinkRoom};
use std::alloc::{AllocError, Allocator, Global};
use std::marker::{Model, PhantomData, Send, Sync};
use std::mem::{align_of, size_of};

/// Names a node, from when it is pushed until it is removed.
pub struct Ticket {
    pub(crate) at: LinkPlace,
}

impl Clone for Ticket {
    ghost is_clone = { λ x y. y ≡ x };

    ghost is_infallible = { λ _. ⊤ };

    fn clone(&self) -> Result<Ticket, AllocError> {
        Ok(*self)
    }
}

impl Copy for Ticket {}

/// The numbers of at most four queues. One may come twice.
#[derive(Clone, Copy)]
pub struct Queues {
    pub a: Option<u32>,
    pub b: Option<u32>,
    pub c: Option<u32>,
    pub d: Option<u32>,
}

/// What a link of a queue carries: the node that it is of, or nothing, where it is the stop.
pub type Side = Option<Ticket>;

/// One of a node's four links for queues.
pub enum Membership {
    In(u32, LinkPlace),
    Idle(LinkRoom<Side>),
}

/// The allocator's token for a block: whoever has it may give the block back. It has no bytes.
pub struct BlockTitle<A: Allocator> {
    mark: PhantomData<*const A>,
    ghost at: { Ptr },
    ghost alloc: { A },
}

impl<A: Allocator> Model for BlockTitle<A> {
    ghost also_owns = { λ d. title_owns (A.dealloc_token d.alloc) d.at };

    ghost also_shares = { λ _ _ _. ftrue };
}

unsafe impl<A: Allocator + Send> Send for BlockTitle<A> {}

/// What a node's link in the list carries: its call, and what the other links are in.
pub struct Node {
    pub(crate) call: u32,
    pub(crate) a: Membership,
    pub(crate) b: Membership,
    pub(crate) c: Membership,
    pub(crate) d: Membership,
    pub(crate) title: BlockTitle<Global>,
    ghost placed: { ArePlaced title.at a b c d },
}

/// The node, or nothing, where the link is the stop.
pub type Head = Option<Node>;

/// The layout of a block.
pub struct Block {
    head: Link<Head>,
    a: Link<Side>,
    b: Link<Side>,
    c: Link<Side>,
    d: Link<Side>,
}

/// Owns a block none of whose links is in use.
pub struct Spare<A: Allocator> {
    pub(crate) at: LinkPlace,
    pub(crate) head: LinkRoom<Head>,
    pub(crate) a: LinkRoom<Side>,
    pub(crate) b: LinkRoom<Side>,
    pub(crate) c: LinkRoom<Side>,
    pub(crate) d: LinkRoom<Side>,
    pub(crate) title: BlockTitle<A>,
    ghost whole: { IsWhole at.ptr title.at head.ptr a.ptr b.ptr c.ptr d.ptr },
}

/// Allocates a block.
pub(crate) fn make<A: Allocator>(alloc: &A) -> Result<Spare<A>, AllocError>
    ensures { IfOk result (λ s. s.title.alloc ≡ alloc.now) }
{
    match alloc.allocate(size_of::<Block>(), align_of::<Block>()) {
        Ok(ptr) => {
            let block = ptr as *mut Block;
            let spare = unsafe {
                Spare {
                    at: LinkPlace { ptr },
                    head: LinkRoom {
                        ptr: ptr as *mut Link<Head>,
                    },
                    a: LinkRoom {
                        ptr: &raw mut (*block).a,
                    },
                    b: LinkRoom {
                        ptr: &raw mut (*block).b,
                    },
                    c: LinkRoom {
                        ptr: &raw mut (*block).c,
                    },
                    d: LinkRoom {
                        ptr: &raw mut (*block).d,
                    },
                    title: BlockTitle { mark: PhantomData },
                }
            };
            Ok(spare)
        }
        Err(error) => Err(error),
    }
}

/// Deallocates a block.
pub(crate) fn give_back<A: Allocator>(alloc: &A, spare: Spare<A>)
    requires { spare.title.alloc ≡ alloc.now }
{
    let Spare {
        at: LinkPlace { ptr },
        head: LinkRoom { ptr: _ },
        a: LinkRoom { ptr: _ },
        b: LinkRoom { ptr: _ },
        c: LinkRoom { ptr: _ },
        d: LinkRoom { ptr: _ },
        title: BlockTitle { mark: _ },
    } = spare;
    unsafe {
        alloc.deallocate(ptr, size_of::<Block>(), align_of::<Block>());
    }
}
