//! Readers of the parts of an interface text below type specs: single tokens, numbers, base types,
//! declarators and attributes. Each reads from the front of a list of tokens, and gives what it
//! read and what is left.
#![tactic(auto)]

mod attribute;
mod basic;
mod declarator;
mod stop;
mod take;

pub use attribute::{labels, plain_attr, range, size_attr, switch_is};
pub use basic::{base, pk, signed};
pub use declarator::{dtor, dtors, enum_body};
pub use stop::Stop;
pub use take::{
    end, is_mark, is_name, is_next, is_number, is_open, is_word, mark, mark_or_none, name,
    name_or_none, number, open, place, shut, text, uuid, word, word_among, word_or_none,
};
