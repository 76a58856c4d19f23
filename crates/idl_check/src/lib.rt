//! Checks interface trees (C706, chapter "Interface Definition Language"): a tree that keeps all rules
//! of the profile, or the first place where one is broken.
//!
//! The rules on interfaces that are about numbers: how many handles an operation has, the tags and the
//! cases of unions, and the limits of the profile (C706, chapter "Interface Definition Language"). Each
//! gives the least place where an event of the text breaks it.
#![tactic(auto)]

mod checked;
mod checking;
mod fault;
mod firsts;
mod handles;
mod judge;
mod limits;
mod profile;
mod unions;

pub use checked::Checked;
pub use checking::check;
pub use fault::CheckFault;
pub use handles::too_many_handles;
pub use profile::outside_profile;
pub use unions::union_tag;
