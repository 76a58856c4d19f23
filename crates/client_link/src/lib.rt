//! A connection of a caller on its link (C706, "Connection-oriented RPC protocol machines", client): what it begins is put,
//! and the server's PDUs are waited for.
#![tactic(auto)]

mod wait;
mod wire;

pub use client_core::{ClientFault, Told};
pub use wait::Stop;
pub use wire::{BeginFault, Wire};
