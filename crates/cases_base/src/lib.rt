//! Cases as data. A text of cases is read line by line. An empty line and one that begins with `#` say nothing. A line
//! `let NAME = OCTETS` names octets for the lines behind it.
//!
//! Where each case is a row, its line is `NAME | GIVEN | WANTED`: the name says what the row shows, and stands before the first
//! bar; what is wanted stands behind the last. Where cases are stories, a line `case NAME` begins one, and its steps are the
//! lines behind it. What is told is how many cases there were, and each that came to something else than its lines say.
#![tactic(auto)]

mod books;
mod fault;
mod names;
mod octets;
mod rows;
mod stories;
mod told;
mod walk;
mod words;

pub use books::{Book, Story, StoryLine, read_book};
pub use fault::CasesFault;
pub use names::Names;
pub use octets::{are_octets, octets_of};
pub use rows::{Answers, Row, answered};
pub use stories::{Plays, Step, played};
pub use told::{Told, subject_of};
pub use words::{bare, first_word, put_debug};
