//! The groups of a replay, by their ids from 1: which of them a connection joins, and each call of a group by its whole
//! journal. What a replay asks of them beside their calls is a bind by the group that it asks for, where a call is, what
//! was said last, and the text of the journals: each is answered by the whole journals, of which the groups keep a part.
//!
//! The interfaces of a replay, its groups and its desks as one value: what a connection's acts and the lines of a script
//! do there.
//!
//! The built-in services are what answers the calls of a script, with an echo of any interface or without: by which rules
//! they answer, and that a script with them has one replay, are its laws. A call ends at its desk: its message, its
//! desk's answer, and what the end then does and says.
#![tactic(auto)]

mod asks;
mod binding;
mod built_in;
mod calls;
mod concluding;
mod counting;
mod ends;
mod groups;
mod laws;
mod leave;
mod opening;
mod realm;
mod realm_bind;
mod realm_calls;
mod request;
mod rundown;
mod said;
mod suiting;
mod texts;

pub use asks::{goes_on, has, has_ended, is_asked, slots, stage};
pub use binding::{BindRefusal, bind};
pub use built_in::{BuiltIn, is_determined, one_replay_with};
pub use ends::finish;
pub use groups::Groups;
pub use laws::has_where;
pub use opening::OpenRefusal;
pub use realm::Realm;
pub use request::Requested;
pub use rundown::run_down;
pub use said::last_said;
pub use suiting::taken_suit;
pub use texts::log;
