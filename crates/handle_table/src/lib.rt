//! The live handles of an association group, so that none is looked for in its journal. A table
//! takes memory in `of` and `reserve` alone.
#![tactic(auto)]

mod cells;
mod ended;
mod known;
mod laws;
mod places;
mod serial_index;
mod table;
mod uses;

pub use known::LiveHandles;
pub use laws::{
    follows_entries, grows_within, shows_base, shows_cookies, shows_faults, shows_kind, shows_live,
};
pub use table::HandleTable;
pub use uses::{cookies_agree, fault};
