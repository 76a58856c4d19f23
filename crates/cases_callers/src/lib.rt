//! Callers as cases. Stories of a connection say what it begins, and what the server's PDUs tell; stories of call scripts have
//! links in memory, the lines of a script and what comes of them; rows are of the texts of calls' values.
#![tactic(auto)]

mod caller;
mod scripts;
mod texts;
mod told;

pub use caller::callers;
pub use scripts::calls;
pub use texts::call_texts;
