//! Reads line after line. What a line carries is decoded once, straight from the text.
ghost use Rattle.std.specs.Prelude.{◌≡◌, ◌++◌, IfOk, MatchOption};
ghost use Rattle.base_words.specs.Reads.{HasNo};
ghost use Rattle.journal_text.specs.Texts.{line, base_line, call_line};
ghost use Rattle.journal_reader.specs.Fits.{FitsHome, FitsBase, FitsCall, FitsEntry};
ghost use Rattle.journal_reader.specs.Lines as lines;
ghost use Rattle.journal_reader.specs.Parts.{group_line, Begins, BeginsNot};

use crate::bases::{read_base_line, read_call_line, read_group_line};
use crate::entries::read_entry_line;
use base_words::cut_line;
use handle_model::{Base, BaseCall, Entry, Home};
use rpc_base::NoMemory;
use std::alloc::Global;

/// What has a line of its own.
trait Lined: Drop + Sized {
    ghost use Rattle.std.specs.Prelude.{List, ℕ, IfOk};
    ghost use Rattle.base_words.specs.Reads.{Reads};

    ghost fits_line: { Self → Type 0 };

    ghost body_of: { Self → List ℕ };

    /// By its whole line, without the line feed.
    fn read(alloc: Global, body: &[u8]) -> Result<Option<Self>, NoMemory>
        ensures { IfOk result (Reads fits_line body_of body.now) };
}

impl Lined for Home {
    ghost fits_line = { FitsHome };

    ghost body_of = { group_line };

    fn read(_alloc: Global, body: &[u8]) -> Result<Option<Self>, NoMemory> {
        Ok(read_group_line(body))
    }
}

impl Lined for Base {
    ghost fits_line = { FitsBase };

    ghost body_of = { base_line };

    fn read(alloc: Global, body: &[u8]) -> Result<Option<Self>, NoMemory> {
        read_base_line(alloc, body)
    }
}

impl Lined for BaseCall {
    ghost fits_line = { FitsCall };

    ghost body_of = { call_line };

    fn read(alloc: Global, body: &[u8]) -> Result<Option<Self>, NoMemory> {
        read_call_line(alloc, body)
    }
}

impl Lined for Entry {
    ghost fits_line = { FitsEntry };

    ghost body_of = { line };

    fn read(alloc: Global, body: &[u8]) -> Result<Option<Self>, NoMemory> {
        read_entry_line(alloc, body)
    }
}

/// What stands in the first line of a text, and what follows the line.
fn next<T: Lined>(alloc: Global, text: &[u8]) -> Result<Option<(T, &[u8])>, NoMemory>
    requires { (x : T) → T.fits_line x → HasNo 10 (T.body_of x) }
    ensures { IfOk result (λ found. MatchOption found (BeginsNot T.fits_line T.body_of text.now)
        (λ x. Begins T.fits_line T.body_of x.0 x.1.now text.now)) }
{
    let Some((body, rest)) = cut_line(text) else {
        return Ok(None);
    };
    let Some(found) = T::read(alloc, body)? else {
        return Ok(None);
    };
    Ok(Some((found, rest)))
}

/// The heading of a journal that begins a text, and what follows its line: None where none does.
///
/// # Errors
/// `NoMemory` where memory runs out.
#[tactic(auto, using(crate::proofs::Heads::group_fed))]
pub fn next_group(alloc: Global, text: &[u8]) -> Result<Option<(Home, &[u8])>, NoMemory>
    ensures { IfOk result (λ found. MatchOption found (lines.BeginsWithNoGroup text.now)
        (λ x. lines.BeginsWithGroup x.0 x.1.now text.now)) }
{
    next(alloc, text)
}

/// The same of a base, without its calls.
///
/// # Errors
/// `NoMemory` where memory runs out.
#[tactic(auto, using(crate::proofs::Heads::base_fed))]
pub fn next_base(alloc: Global, text: &[u8]) -> Result<Option<(Base, &[u8])>, NoMemory>
    ensures { IfOk result (λ found. MatchOption found (lines.BeginsWithNoBase text.now)
        (λ x. lines.BeginsWithBase x.0 x.1.now text.now)) }
{
    next(alloc, text)
}

/// The same of a call of a base.
///
/// # Errors
/// `NoMemory` where memory runs out.
#[tactic(auto, using(crate::proofs::Heads::call_fed))]
pub fn next_call(alloc: Global, text: &[u8]) -> Result<Option<(BaseCall, &[u8])>, NoMemory>
    ensures { IfOk result (λ found. MatchOption found (lines.BeginsWithNoCall text.now)
        (λ x. lines.BeginsWithCall x.0 x.1.now text.now)) }
{
    next(alloc, text)
}

/// The same of an entry.
///
/// # Errors
/// `NoMemory` where memory runs out.
#[tactic(auto, using(crate::proofs::Heads::entry_fed))]
pub fn next_entry(alloc: Global, text: &[u8]) -> Result<Option<(Entry, &[u8])>, NoMemory>
    ensures { IfOk result (λ found. MatchOption found (lines.BeginsWithNoEntry text.now)
        (λ x. lines.BeginsWithEntry x.0 x.1.now text.now)) }
{
    next(alloc, text)
}
