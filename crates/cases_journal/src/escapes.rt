//! Texts of lines whose ends show.

use cases_base::bare;
use rpc_base::NoMemory;
use std::alloc::Global;

/// Puts the text that a line of a case stands for, which may stand between quotation marks: `\n` is a line feed in it, and
/// `\r` a carriage return. Whether it ends with a backslash alone: then it has no end of a line.
pub fn put_unescaped(text: &str, into: &mut Vec<u8>) -> Result<bool, NoMemory> {
    let mut is_escaped = false;
    for octet in bare(text).bytes() {
        match (is_escaped, octet) {
            (false, b'\\') => {}
            (true, b'n') => into.push(b'\n')?,
            (true, b'r') => into.push(b'\r')?,
            _ => into.push(octet)?,
        }
        is_escaped = !is_escaped && octet == b'\\';
    }
    Ok(is_escaped)
}

/// Puts the lines of a text side by side.
pub fn put_joined(text: &[u8], into: &mut Vec<u8>) -> Result<(), NoMemory> {
    let lines = text.strip_suffix(b"\n").unwrap_or(text);
    for octet in lines {
        match octet {
            b'\n' => into.extend_from_slice(b" / ")?,
            octet => into.push(*octet)?,
        }
    }
    Ok(())
}
