//! Messages of operations from stub data and as stub data (C706, chapter "Transfer Syntax NDR").
#![tactic(auto)]

mod fault;
mod fit;
mod range;
mod stub;
mod written;

pub use fit::fits;
pub use ndr_model::{NdrFault, Way};
pub use range::in_range;
pub use stub::decode;
pub use written::{EncodeFault, encode};
