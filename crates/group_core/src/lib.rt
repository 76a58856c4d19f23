//! An association group: the journal of the connections and calls that share its context handles.
//!
//! Laws of the calls of a group, for what stands above it.
#![tactic(auto)]

mod accept;
mod answer;
mod counts;
mod end;
mod ended;
mod fold;
mod group;
mod journal;
mod judge;
mod laws;
mod log;
mod marks;
mod numbers;
mod replies;

pub use answer::{AcceptRefusal, Cancelled, JoinRefusal, Orphaned, Rest, Stage, Taking};
pub use group::Group;
pub use journal::Journal;
pub use laws::{
    accepts_grow, cancels_grow, ends_grow, grows_on, joins_grow, leaves_grow, orphans_grow,
    stays_earlier, takes_grow,
};
pub use numbers::number_slots;
pub use replies::{
    cancels_reply, denies_reply, drops_reply, ends_reply, leaves_reply, orphans_reply, replies_stay,
};
