//! Words of lines.

use base_words::put;
use rpc_base::NoMemory;
use std::alloc::Global;
use std::fmt::Debug;

/// The first word of a text, and what stands behind it.
pub fn first_word(text: &str) -> (&str, &str) {
    let text = text.trim();
    match text.split_once(' ') {
        Some((word, rest)) => (word, rest.trim()),
        None => (text, ""),
    }
}

/// What stands between the quotation marks of a text that has them: so it may begin or end with spaces, or be empty.
pub fn bare(text: &str) -> &str {
    let inner = text
        .strip_prefix('"')
        .and_then(|text| text.strip_suffix('"'));
    inner.unwrap_or(text)
}

/// Puts a value in the form that `Debug` has.
pub fn put_debug<T: Debug>(alloc: Global, value: &T, into: &mut Vec<u8>) -> Result<(), NoMemory> {
    let text = format!(in alloc; "{value:?}")?;
    put(text.as_bytes(), into)
}
