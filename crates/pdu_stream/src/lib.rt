//! Streams of octets as PDUs, whatever the pieces in which they come, and fragments of requests as whole requests.
#![tactic(auto)]

mod cut;
mod feed;
mod fragment;
mod front;
mod joined;
mod joiner;
mod laws;
mod pieces;

pub use cut::{Cut, Pdus, cut_stream};
pub use feed::Feed;
pub use fragment::MOST_STUB;
pub use joined::{JoinFault, Joined};
pub use joiner::Joiner;
pub use laws::{
    cut_goes_on, fault_stays, has_cut, next_of_cut, one_cut, one_cutting, pieces_cover,
    push_goes_on, runs_go_on, runs_join,
};
pub use pieces::piece;
