//! The journal of an association group: its entries, the definitions of what they say together
//! (`specs/`), and laws of every legal journal, each the contract of a function that does nothing: whoever shows
//! that a journal is legal may rest on them.
#![tactic(auto)]

mod base;
mod calls;
mod connections;
mod due;
mod entry;
mod events;
mod handles;
mod limits;
mod moments;
mod refused;
mod replies;
mod reply;
mod running;
mod slots;
mod waiting;

pub use base::{Base, BaseCall, BaseCalls, Conns};
pub use calls::{
    accepts_new, accepts_once, asked_stays, asks_as_accepted, cancels_once, decided_once,
    decides_after_accept, decides_before_leave, ends_after_take, ends_once, orphans_once,
    takes_after_accept, takes_once,
};
pub use connections::{accepts_of_open, joins_new, joins_once, leaves_after_join, leaves_once};
pub use due::{Due, DueList, Rundown};
pub use entry::{
    Asked, CookieRow, Cookies, DueItem, DueItems, Entry, Home, Outcome, Outcomes, Said, Slot, Slots,
};
pub use handles::{closings_are_ends, one_fate};
pub use limits::{AcceptLimit, JoinLimit, MOST_HANDLES, accept_limit, join_limit};
pub use moments::{common_past_agrees, kind_stays, moments_in_order, older_is_legal, shut_is_last};
pub use refused::{
    fault_refuses, foreign_at_fault, null_at_fault, twice_at_fault, usable_names_live,
};
pub use replies::{
    cancel_replies, deny_replies, end_replies, leave_replies, never_is_untaken, orphan_replies,
    ran_has_ended, reply_stays,
};
pub use reply::Reply;
pub use running::{named_live, running_apart, taken_issued, taken_live};
pub use slots::{any_clash, count_opens, follow, handle_of, names_apart, suit};
pub use waiting::least_goes_on;
