//! The server of a world of both ends: its interfaces, and its one group with the whole journal beside it. Each call of
//! the group is answered by the whole journal, of which the group itself keeps a part.
#![tactic(auto)]

mod anys;
mod calls;
mod conns;
mod finishes;
mod grown;
mod replies;
mod requests;
mod server;
mod settling;

pub use server::Server;
