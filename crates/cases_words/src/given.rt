//! What a row gives: a verb, and a text behind it.

use cases_base::{Names, bare, first_word, octets_of};
use rpc_base::NoMemory;
use std::alloc::Global;

/// The verb, and the octets of the text: as they stand between quotation marks, else those of the words. None where the words
/// have none.
pub fn given_octets<'a>(
    alloc: Global,
    names: &Names,
    given: &'a str,
) -> Result<Option<(&'a str, Vec<u8>)>, NoMemory> {
    let (verb, text) = first_word(given);
    if text.starts_with('"') {
        return Ok(Some((verb, Vec::from_slice(alloc, bare(text).as_bytes())?)));
    }
    match octets_of(alloc, names, text)? {
        Some(octets) => Ok(Some((verb, octets))),
        None => Ok(None),
    }
}
