//! The managers of a server whose connections are served side by side: a desk behind a lock, whose calls
//! come one after another, and the built-in services, each of which has a lock of its own (C706, "Remote
//! Procedure Call Model", interfaces and managers). `DeskService` is what a server of this runtime serves connections with:
//! the built-in interfaces and an echo of any other, each with its table and its manager.
#![tactic(auto)]

mod endpoints;
mod keeper;
mod lasting;
mod laws;
mod locked;
mod pass;
mod served;
mod service;
mod shared;

/// The length in octets of the longest stub whose call is brief: a desk's call takes time by its stub.
const BRIEF: usize = 65_536;

pub use keeper::Keeper;
pub use laws::{chains_gain, each_stands_once};
pub use locked::Locked;
pub use pass::SharedPass;
pub use service::DeskService;
pub use shared::SharedDesks;
