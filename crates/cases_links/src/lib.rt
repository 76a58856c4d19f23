//! Links, doors and dials in memory, whose peers may wait for one another. A link has flags: some hold back what comes from its
//! peer until they are set, others it sets itself. Whoever else has a flag, as the peer of another link or a manager, goes
//! by the same.
#![tactic(auto)]

mod doors;
mod gates;
mod links;

pub use doors::PlayDoor;
pub use gates::{Flag, Flags, Gates, is_open, open};
pub use links::{LinkPlan, PlayLink};
