//! Links that count the packets on them, as management tells them (C706, "Remote Management Interface",
//! rpc__mgmt_inq_stats): calls in, packets in and packets out.
//!
//! They follow the heads of PDUs alone and take no memory. Contracts see a link that counts as the link inside.
//!
//! The packets of a stream of octets, counted as they come.
#![tactic(auto)]

mod behind;
mod counting;
mod laws;
mod link;
mod packets;
mod place;

pub use laws::{counted_are_packets, pdus_are_packets, pdus_go_on};
pub use link::CountLink;
pub use packets::Packets;
pub use place::{NewPackets, Place};
