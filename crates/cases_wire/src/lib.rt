//! Cases of what goes over the wire: fields, PDUs, streams of them, requests in fragments, presentation contexts, towers and
//! whole connections of a server.
#![tactic(auto)]

mod conn_stories;
mod context_stories;
mod field_rows;
mod pdu_rows;
mod stream_rows;
mod tower_rows;

pub use conn_stories::{conns, multiplexed};
pub use context_stories::contexts;
pub use field_rows::fields;
pub use pdu_rows::pdus;
pub use stream_rows::streams;
pub use tower_rows::towers;
