//! The calls of an association group that wait or run, so that none is looked for in its journal. A
//! table takes memory in `of` and `reserve` alone.
#![tactic(auto)]

mod ahead;
mod based;
mod blocking;
mod blocks;
mod ends;
mod held;
mod laws;
mod lists;
mod queues;
mod row;
mod row_table;
mod rows;
mod running;
mod seek;
mod sorted;
mod table;
mod tally;
mod waiting;

pub use held::OpenRows;
pub use laws::{
    follows_entries, none_ahead_of_free, numbers_rise, shows_asked, shows_base, shows_blocker,
    shows_calls, shows_counts, shows_last, shows_row, shows_slots, shows_stage,
};
pub use row::{CallSlots, Row};
pub use table::CallTable;
