//! The tables of a journal that an audit judges its entries by. They say what the tables of a group say,
//! and cost about the same an entry however many calls, connections and handles are open: a journal that
//! is audited keeps to no limit of a group. They take memory as they grow.
#![tactic(auto)]

mod admits;
mod calls;
mod conns;
mod enter;
mod handles;
mod index;
mod tables;
mod users;

pub use tables::AuditTables;
