//! The tables of a journal: its live handles, the calls that wait or run, its open connections and its
//! counts. They judge each entry, and follow it, at a cost that the journal's length has no part in. Of a journal that is
//! folded they give the base, which is what is kept where older entries are moved into it.
//!
//! Laws of folded journals, for what stands above a group.
#![tactic(auto)]

mod admits;
mod conns;
mod enter;
mod fits;
mod fold;
mod fold_chain;
mod fold_laws;
mod folding;
mod front;
mod laws;
mod tables;

pub use conns::{ConnTable, OpenConn};
pub use fits::{
    call_runs, comes_next, fits_cancel, fits_deny, fits_end, fits_orphan, fits_slots, fits_take,
};
pub use fold_chain::{folds_again, folds_back, folds_on, folds_once, folds_stand, folds_twice};
pub use fold_laws::{
    accepts_next, holds_accepts, holds_calls, holds_joins, holds_since_accept, holds_since_join,
    joins_next, keeps_accepts, keeps_joins, keeps_replies,
};
pub use folding::{advances_to, advances_twice, folds, gives_sound, keeps_legal};
pub use front::{folded_base, tables_after};
pub use laws::{admits_allowed, follows_entries, shows_base, shows_conns, shows_due, shows_floor};
pub use tables::Tables;
