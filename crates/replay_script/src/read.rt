//! Reads one line.
ghost use Rattle.std.specs.Prelude.{◌≡◌, ℕ, List, [], ◌∷◌, ◌++◌, IfOk, MatchOption, decimal};
ghost use Rattle.hex.specs.Hex.{IsBytes};
ghost use Rattle.base_words.specs.Reads.{Reads};
ghost use Rattle.base_words.specs.Words.{octets_text};
ghost use Rattle.replay_script.specs.Heads.{head_and_rest};
ghost use Rattle.replay_script.specs.Lines.{IsConnection, FitsLine, line_body, BeginsWith, BeginsWithNoLine};

use crate::{Line, MOST_CONNECTIONS};
use base_words::{cut_at, cut_line, read_between, read_hex_u64, read_octets};
use rpc_base::{NoMemory, Octets};
use std::alloc::Global;

/// The number of a connection.
fn read_connection(text: &[u8]) -> Option<u32>
    ensures { Reads IsConnection decimal text.now result }
{
    let number = read_between(text, 1, MOST_CONNECTIONS as u64)?;
    Some(number as u32)
}

/// The number of a connection and the octets that arrive on it.
fn read_arrival(alloc: Global, text: &[u8]) -> Result<Option<(u32, Octets)>, NoMemory>
    ensures { IfOk result (Reads (λ x. IsConnection x.0 × IsBytes x.1) (λ x. decimal x.0 ++ (32 ∷ octets_text x.1)) text.now) }
{
    let Some((connection, octets)) = cut_at(b' ', text) else {
        return Ok(None);
    };
    let Some(connection) = read_connection(connection) else {
        return Ok(None);
    };
    let Some(octets) = read_octets(alloc, octets)? else {
        return Ok(None);
    };
    Ok(Some((connection, octets)))
}

/// A line by its first word and what stands behind the space after it.
fn read_named(alloc: Global, name: &[u8], rest: &[u8]) -> Result<Option<Line>, NoMemory>
    ensures { IfOk result (Reads FitsLine head_and_rest (name.now ∷ rest.now ∷ [])) }
{
    if name == b"boot".as_slice() {
        Ok(read_hex_u64(rest).map(Line::Boot))
    } else if name == b"open".as_slice() {
        Ok(read_connection(rest).map(Line::Open))
    } else if name == b"send".as_slice() {
        let Some((connection, octets)) = read_arrival(alloc, rest)? else {
            return Ok(None);
        };
        Ok(Some(Line::Send(connection, octets)))
    } else if name == b"run".as_slice() {
        Ok(read_connection(rest).map(Line::Run))
    } else if name == b"finish".as_slice() {
        Ok(read_connection(rest).map(Line::Finish))
    } else if name == b"lose".as_slice() {
        Ok(read_connection(rest).map(Line::Lose))
    } else {
        Ok(None)
    }
}

/// A line, without its line feed.
fn read_line(alloc: Global, body: &[u8]) -> Result<Option<Line>, NoMemory>
    ensures { IfOk result (Reads FitsLine line_body body.now) }
{
    let Some((name, rest)) = cut_at(b' ', body) else {
        return Ok(None);
    };
    read_named(alloc, name, rest)
}

/// The first line of a text, and what follows it: None where no line of a script begins the text.
/// The octets that a line carries are decoded once, straight from the text.
///
/// # Errors
///
/// `NoMemory` where there is no memory for the line.
pub fn next_line(alloc: Global, text: &[u8]) -> Result<Option<(Line, &[u8])>, NoMemory>
    ensures { IfOk result (λ found. MatchOption found (BeginsWithNoLine text.now) (λ x. BeginsWith x.0 x.1.now text.now)) }
{
    let Some((body, rest)) = cut_line(text) else {
        return Ok(None);
    };
    let Some(line) = read_line(alloc, body)? else {
        return Ok(None);
    };
    Ok(Some((line, rest)))
}
