//! Tokens, as rows write them.

use base_words::put;
use idl_tokens::{Kind, tokens};
use rpc_base::NoMemory;
use std::alloc::Global;

fn put_kind(alloc: Global, kind: &Kind, into: &mut Vec<u8>) -> Result<(), NoMemory> {
    match kind {
        Kind::Word(word) => put(word.text(), into),
        Kind::Name(name) => put_within(b"name(", name.as_slice(), into),
        Kind::Number(Some(value)) => put(format!(in alloc; "num({value})")?.as_bytes(), into),
        Kind::Number(None) => put(b"num(large)", into),
        Kind::Text(inside) => put_within(b"str(", inside.as_slice(), into),
        Kind::Uuid(id) => {
            let id = id.hyphenated();
            put(format!(in alloc; "id({id})")?.as_bytes(), into)
        }
        Kind::Mark(mark) => put(&[mark.octet()], into),
        Kind::Open(bracket, level) => {
            put(&[bracket.open_octet()], into)?;
            put(format!(in alloc; "{level}")?.as_bytes(), into)
        }
        Kind::Shut(bracket) => put(&[bracket.shut_octet()], into),
        Kind::End => put(b"end", into),
        Kind::Bad => put(b"bad", into),
    }
}

fn put_within(word: &[u8], text: &[u8], into: &mut Vec<u8>) -> Result<(), NoMemory> {
    put(word, into)?;
    put(text, into)?;
    put(b")", into)
}

/// Puts the tokens of a text, each behind its place.
///
/// # Errors
///
/// `NoMemory` where there is no memory for it.
pub fn put_tokens(alloc: Global, text: &[u8], into: &mut Vec<u8>) -> Result<(), NoMemory> {
    for token in &tokens(alloc, text)? {
        if !into.is_empty() {
            put(b" ", into)?;
        }
        let at = token.at;
        put(format!(in alloc; "{at}:")?.as_bytes(), into)?;
        put_kind(alloc, &token.kind, into)?;
    }
    Ok(())
}
