//! Remote management (C706, "Remote Management Interface", in this runtime's profile): which
//! interfaces are served, how many calls and packets there were, and that the server listens. It is
//! served as interface 3.
#![tactic(auto)]

mod answers;
mod desk;
mod idl;
mod ids;
mod table;

pub use desk::MgmtDesk;
pub use idl::MGMT_IDL;
pub use ids::Ids;
pub use table::mgmt_table;
