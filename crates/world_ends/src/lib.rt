//! The two ends of a connection of a world of both ends: the caller's, which hears what came and knows of each of its
//! calls what it was told; and the server's, which does what the octets ask and says what the group decides.
#![tactic(auto)]

mod acts;
mod caller;
mod fate;
mod going;
mod hearing;
mod serving;
mod words;

pub use caller::Caller;
pub use fate::Fate;
pub use serving::{Serving, Waiting};
