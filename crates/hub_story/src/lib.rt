//! The history of a hub's shard: the marks of its directory and the entries of its groups, in the order
//! in which all threads entered them.
//!
//! A history stands in contracts alone, whole from the first item on, whatever the groups fold. Beside
//! the items this crate has definitions (`specs/`): what holds of each history, what a pass has seen and
//! what is its own, what a call enters, and what a group answers by the whole journal; and laws of them.
//!
//! Laws of folded journals as passes of a hub see them, each the contract of a function that does nothing:
//! what a front has of a group's journal, as the group keeps it, is a prefix of what each later front has, and
//! what is open stands there, with all that came after it.
//!
//! A group keeps a base and the entries since then, and each Join may move entries into the base, so one
//! list is no beginning of the other. `specs/Prefixes` says what a prefix is then.
#![tactic(auto)]

mod front_laws;
mod item;
mod laws;

pub use front_laws::{
    accepts_stay, calls_go_on, calls_stay, folded_ended, folded_left, fronts_compare, fronts_go_on,
    joins_stay, kept_goes_on, own_stays, shuts_stay, takes_stay,
};
pub use item::{Item, Mark};
pub use laws::{
    asked_is_asked, keeps_join, keeps_whole, runs_as_asked, runs_by_front, serves_by_front,
    still_has_all,
};
