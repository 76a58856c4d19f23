//! Judges the journals of a text: whether each is legal and settled, or where it is not. The lines of
//! a base are judged one after the other, each by what those before it say of its numbers; each entry is
//! judged by the tables of the journal before it.
//!
//! From which base a journal may go on, judged call by call. What a call is judged by is looked up by
//! number, so its cost is that of a look-up, however many calls came before it.
#![tactic(auto)]

mod bases;
mod calls;
mod file;
mod growing;
mod heads;
mod held;
mod journals;
mod laws;
mod looks;
mod numbers;
mod rising;
mod text_laws;
mod verdict;
mod watch;

pub use file::audit;
pub use growing::Growing;
pub use heads::is_sound_head;
pub use laws::sound_by_lines;
pub use text_laws::{good_is_legal, neither_both, one_departure, one_reading, one_verdict};
pub use verdict::{AuditFault, GroupVerdict, Verdict, Verdicts};
