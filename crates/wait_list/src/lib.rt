//! The calls of a group in the order of their acceptance, each in up to four queues as well. A node is
//! one block of memory that is linked into all of them, so it leaves at a fixed cost, however many
//! others there are.
//!
//! `link`, `ring` and `node` have the raw pointers: to make a node and give it back, to link and unlink
//! it, to go on to the next one and to read what it carries. All else is safe code over these.
#![tactic(auto)]

mod link;
mod list;
mod memberships;
mod node;
mod node_ring;
mod queue;
mod ring;
mod steps;
mod waits;

#[doc(hidden)]
pub use link::{Link, LinkPlace, LinkRoom, LooseLink};
#[doc(hidden)]
pub use list::Lists;
#[doc(hidden)]
pub use node::{Block, BlockTitle, Membership, Node, Spare};
pub use node::{Queues, Ticket};
#[doc(hidden)]
pub use node_ring::NodeRing;
#[doc(hidden)]
pub use queue::Queue;
#[doc(hidden)]
pub use ring::Ring;
pub use steps::Steps;
pub use waits::WaitList;
