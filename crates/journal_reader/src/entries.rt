//! Reads the line of an entry.
ghost use Rattle.std.specs.Prelude.{◌≡◌, ◌∷◌, [], IfOk};
ghost use Rattle.base_words.specs.Reads.{Reads};
ghost use Rattle.journal_text.specs.Texts as spec;
ghost use Rattle.journal_reader.specs.Fits.{FitsAccept, FitsTake, FitsDeny, FitsEnd, FitsEntry};
ghost use Rattle.journal_reader.specs.Parts as parts;

use crate::asked::read_asked;
use crate::cut::{cut_three, cut_two};
use crate::list::{read_cookies, read_dues, read_outcomes};
use crate::part::read_said;
use base_words::{read_u8, read_u32};
use handle_model::{Asked, Cookies, Entry, Outcomes, Said};
use rpc_base::NoMemory;
use std::alloc::Global;

fn accept_of(alloc: Global, call: &[u8], asked: &[u8]) -> Result<Option<(u32, Asked)>, NoMemory>
    ensures { IfOk result (Reads FitsAccept parts.accept_parts (call.now ∷ asked.now ∷ [])) }
{
    let Some(call) = read_u32(call) else {
        return Ok(None);
    };
    let Some(asked) = read_asked(alloc, asked)? else {
        return Ok(None);
    };
    Ok(Some((call, asked)))
}

fn read_accept(alloc: Global, text: &[u8]) -> Result<Option<(u32, Asked)>, NoMemory>
    ensures { IfOk result (Reads FitsAccept parts.accept_text text.now) }
{
    let Some((call, asked)) = cut_two(b' ', text) else {
        return Ok(None);
    };
    accept_of(alloc, call, asked)
}

fn take_of(alloc: Global, call: &[u8], cookies: &[u8]) -> Result<Option<(u32, Cookies)>, NoMemory>
    ensures { IfOk result (Reads FitsTake parts.take_parts (call.now ∷ cookies.now ∷ [])) }
{
    let Some(call) = read_u32(call) else {
        return Ok(None);
    };
    let Some(cookies) = read_cookies(alloc, cookies)? else {
        return Ok(None);
    };
    Ok(Some((call, cookies)))
}

fn read_take(alloc: Global, text: &[u8]) -> Result<Option<(u32, Cookies)>, NoMemory>
    ensures { IfOk result (Reads FitsTake parts.take_text text.now) }
{
    let Some((call, cookies)) = cut_two(b' ', text) else {
        return Ok(None);
    };
    take_of(alloc, call, cookies)
}

fn deny_of(call: &[u8], slot: &[u8]) -> Option<(u32, u8)>
    ensures { Reads FitsDeny parts.deny_parts (call.now ∷ slot.now ∷ []) result }
{
    let call = read_u32(call)?;
    let slot = read_u8(slot)?;
    Some((call, slot))
}

fn read_deny(text: &[u8]) -> Option<(u32, u8)>
    ensures { Reads FitsDeny parts.deny_text text.now result }
{
    let (call, slot) = cut_two(b' ', text)?;
    deny_of(call, slot)
}

fn end_of(
    alloc: Global,
    call: &[u8],
    results: &[u8],
    said: &[u8],
) -> Result<Option<(u32, Outcomes, Said)>, NoMemory>
    ensures { IfOk result (Reads FitsEnd parts.end_parts (call.now ∷ results.now ∷ said.now ∷ [])) }
{
    let Some(call) = read_u32(call) else {
        return Ok(None);
    };
    let Some(results) = read_outcomes(alloc, results)? else {
        return Ok(None);
    };
    let Some(said) = read_said(alloc, said)? else {
        return Ok(None);
    };
    Ok(Some((call, results, said)))
}

fn read_end(alloc: Global, text: &[u8]) -> Result<Option<(u32, Outcomes, Said)>, NoMemory>
    ensures { IfOk result (Reads FitsEnd parts.end_text text.now) }
{
    let Some((call, results, said)) = cut_three(b' ', text) else {
        return Ok(None);
    };
    end_of(alloc, call, results, said)
}

/// An entry by its first word and what stands behind the space after it.
fn entry_of(alloc: Global, name: &[u8], rest: &[u8]) -> Result<Option<Entry>, NoMemory>
    ensures { IfOk result (Reads FitsEntry parts.entry_parts (name.now ∷ rest.now ∷ [])) }
{
    if name == b"join".as_slice() {
        Ok(read_u32(rest).map(|conn| Entry::Join { conn }))
    } else if name == b"accept".as_slice() {
        let Some((call, asked)) = read_accept(alloc, rest)? else {
            return Ok(None);
        };
        Ok(Some(Entry::Accept { call, asked }))
    } else if name == b"take".as_slice() {
        let Some((call, cookies)) = read_take(alloc, rest)? else {
            return Ok(None);
        };
        Ok(Some(Entry::Take { call, cookies }))
    } else if name == b"deny".as_slice() {
        let Some((call, slot)) = read_deny(rest) else {
            return Ok(None);
        };
        Ok(Some(Entry::Deny { call, slot }))
    } else if name == b"cancel".as_slice() {
        Ok(read_u32(rest).map(|call| Entry::Cancel { call }))
    } else if name == b"orphan".as_slice() {
        Ok(read_u32(rest).map(|call| Entry::Orphan { call }))
    } else if name == b"end".as_slice() {
        let Some((call, results, said)) = read_end(alloc, rest)? else {
            return Ok(None);
        };
        Ok(Some(Entry::End {
            call,
            results,
            said,
        }))
    } else if name == b"leave".as_slice() {
        Ok(read_u32(rest).map(|conn| Entry::Leave { conn }))
    } else if name == b"shut".as_slice() {
        Ok(read_dues(alloc, rest)?.map(|due| Entry::Shut { due }))
    } else {
        Ok(None)
    }
}

/// The line of an entry, without its line feed.
pub(crate) fn read_entry_line(alloc: Global, body: &[u8]) -> Result<Option<Entry>, NoMemory>
    ensures { IfOk result (Reads FitsEntry spec.line body.now) }
{
    let Some((name, rest)) = cut_two(b' ', body) else {
        return Ok(None);
    };
    entry_of(alloc, name, rest)
}
