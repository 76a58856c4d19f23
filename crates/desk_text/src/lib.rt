//! Services of an interface text (C706, "Interface Definition Language", and "Remote Procedure Call Model", managers). The
//! marshalling table comes from the text. An answer is given where it suits its operation, and what a call leaves is kept
//! then alone. A service stands behind a lock, which any thread may take.
#![tactic(auto)]

mod interface;
mod kepts;
mod played;
mod service;
mod suited;

pub use interface::{TextFault, table_of};
pub use played::play;
pub use service::TextService;
pub use suited::suits;
