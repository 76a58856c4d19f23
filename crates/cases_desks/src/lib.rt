//! Plays cases of desks: stories of calls, the interfaces' tables, registrations, and management over each kind of numbers.
#![tactic(auto)]

mod calls;
mod keeping;
mod management;
mod registrations;
mod rows;
mod story;
mod tables;

pub use story::desk_calls;
