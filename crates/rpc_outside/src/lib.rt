//! The network as the runtime sees it: links to peers, doors that hand out the links of those who
//! call, and dials that open links to others; and each of these in memory, by a script.
//!
//! An object counts what no clause can foresee: that it failed, that nothing came, that its peer
//! ended or that it hands out no more links. Such an answer comes only where its count rose, and code
//! that is generic over the trait can't raise it. A count stays at 2^64 - 1 once it stands there.
//! What an object holds is known where it tells it. An object in memory tells all; a socket tells
//! nothing.
#![tactic(auto)]

mod address;
mod dial;
mod door;
mod link;
mod links;
mod put;
mod script;
mod script_dial;
mod script_door;
mod script_link;

pub use address::Address;
pub use dial::Dial;
pub use door::Door;
pub use link::{Link, Taken};
pub use links::Links;
pub use put::put_all;
pub use script::{LinkStep, LinkSteps};
pub use script_dial::ScriptDial;
pub use script_door::ScriptDoor;
pub use script_link::ScriptLink;
