//! Words of texts, in one spelling each: decimal numbers, octets and numbers in hexadecimal, lines.
//!
//! Journals, scripts and values are written and read by these. Whatever is read here would be
//! written as the very same octets, and whatever is written is read as the same value.
#![tactic(auto)]

mod cut;
mod read;
mod write;

pub use cut::{cut_at, cut_line, split_words};
pub use read::{
    read_between, read_hex, read_hex_u32, read_hex_u64, read_hex_u128, read_octets, read_u8,
    read_u16, read_u32, read_u64,
};
pub use write::{put, put_decimal, put_hex, put_hex_u32, put_hex_u64, put_hex_u128, put_octets};
