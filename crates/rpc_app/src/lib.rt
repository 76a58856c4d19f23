//! The commands of the program.
#![tactic(auto)]

mod calling;
mod carry;
mod command;
mod idl;
mod limits;
mod load;
mod make;
mod say;
mod serving;
mod task;
mod top;
mod verdicts;
mod words;

pub use top::{Obeyed, obey, run};
pub use words::{CallTask, ServeTask};
