//! Whether counts, switch values and numbers with ranges agree with what names them (C706, chapter
//! "Transfer Syntax NDR"; `range` is of MIDL).
//!
//! Whether two messages are the same, item by item.
#![tactic(auto)]

mod arrays;
mod call;
mod check;
mod compare;
mod entries;
mod leaves;
mod message;
mod named;
mod range;

pub use call::Call;
pub use entries::first_off;
pub use message::same_message;
pub use range::op_in_range;
