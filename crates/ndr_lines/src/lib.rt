//! Stubs as cases. Lines have stubs of interfaces: each is decoded, and what came is compared with what the line names. Its text
//! is read too, where its octets are the canonical ones and it has no handles, and what comes is written.
#![tactic(auto)]

mod blocks;
mod case;
mod fit;
mod read;
mod text;
mod typed;

pub use blocks::{stubs, table_of};
pub use case::{decoded, is_fit};
pub use fit::apart;
pub use text::put_message;
pub use typed::are_typed;
