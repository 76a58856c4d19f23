//! One shard of a hub: the groups of its ids, and the directory of them, as a value that threads take
//! turns at.
//!
//! No thread and no lock stands here. Each call of the shard is an `Act`, which runs in one turn: whatever
//! history the shard tells before, it tells that history with the act's items behind afterwards, and
//! the answer is by that history. A group keeps its journal folded; only the acts that tell what it keeps
//! speak of that.
#![tactic(auto)]

mod act;
mod answer;
mod calls;
mod copy;
mod find;
mod opening;
mod retiring;
mod shard;

pub use act::Act;
pub use answer::{Absence, FindRefusal, HubRest, OpenRefusal, Retired, ShutKey};
pub use calls::{Accept, Ask, Cancel, End, LastAhead, Leave, Orphan, Stand, Take};
pub use copy::Copied;
pub use find::Find;
pub use opening::OpenNext;
pub use retiring::Retire;
pub use shard::{Listed, Shard, Whose};
