//! The desk of the store: files behind handles. It is served as interface 1.
//!
//! A store of files behind handles: what its operations do (`specs/`), its interface as text, and
//! its table.
#![tactic(auto)]

mod answers;
mod desk;
mod file;
mod files;
mod idl;
mod table;

pub use desk::StoreDesk;
pub use file::File;
pub use idl::STORE_IDL;
pub use table::store_table;
