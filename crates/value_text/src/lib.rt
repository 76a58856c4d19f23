//! Texts of values: one for each value of a shape, read and written.
//!
//! `true` and `false`; numbers in decimal; texts in double quotes, with `\xHH` for what doesn't print and for `"` and
//! `\`; structures `{a, b}`; arrays `[a, b]`; unions `(tag: v)`, or `(tag)` where the arm is empty; pointers `null` or
//! `&v`; full pointers `null` or `@N`, an item of the heap; handles `$K`, a place among a message's handles.
#![tactic(auto)]

mod departure;
mod laws;
mod marks;
mod numbers;
mod print;
mod quoted;
mod read;
mod shapes;
mod top;

pub use departure::TextFault;
pub use laws::{fuel_suffices, one_value};
pub use print::print_value;
pub use top::read_value;
