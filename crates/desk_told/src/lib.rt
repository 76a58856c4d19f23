//! A desk behind a turn lock, with one history of what it did.
//!
//! The history says how the desk began and then lists its deeds: each call with its answer, and each run-down of a
//! handle (C706, "Remote Procedure Call Model", managers; "Interface Definition Language", context rundown). Each
//! deed leads on from where those before it have led, by the desk's own relations. Each thread has a pass, of which
//! contracts see a beginning of the history and the places of the deeds that it had done.
//!
//! The history stands in contracts alone: it takes no memory. What a deed takes is the desk's own.
#![tactic(auto)]

mod deed;
mod desk;
mod laws;
mod state;

pub use deed::{Deed, Telling};
pub use desk::{DeskPass, ToldDesk};
pub use laws::each_follows;
pub use state::DeskState;
