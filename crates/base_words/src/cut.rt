//! Cuts texts into lines and words.
ghost use Rattle.std.specs.Prelude.{◌≡◌, ◌++◌, ◌∷◌, ◌==◌, map, IfOk, MatchOption};
ghost use Rattle.std.specs.List.{slice_split};
ghost use Rattle.base_words.specs.Reads.{HasNo};

use rpc_base::NoMemory;
use std::alloc::Global;

/// What stands before the first octet of that kind and what stands behind it. It takes no memory.
pub fn cut_at(octet: u8, text: &[u8]) -> Option<(&[u8], &[u8])>
    ensures { MatchOption result (HasNo octet text.now)
        (λ cut. (text.now ≡ cut.0.now ++ (octet ∷ cut.1.now)) × HasNo octet cut.0.now) }
{
    let at = text.iter().position(|b| *b == octet)?;
    Some((&text[..at], &text[at + 1..]))
}

/// The first line, without its line feed, and what follows it.
pub fn cut_line(text: &[u8]) -> Option<(&[u8], &[u8])>
    ensures { MatchOption result (HasNo 10 text.now)
        (λ cut. (text.now ≡ cut.0.now ++ (10 ∷ cut.1.now)) × HasNo 10 cut.0.now) }
{
    cut_at(b'\n', text)
}

/// The words of a line: what stands before, between and behind its spaces. The list takes
/// memory for each word, so a caller who knows how many there may be cuts them off one by one.
///
/// # Errors
///
/// `NoMemory` where there is no memory for the list.
pub fn split_words(alloc: Global, line: &[u8]) -> Result<Vec<&[u8]>, NoMemory>
    ensures { IfOk result (λ words. map (λ x. x.now) words.items ≡ slice_split (λ b. b == 32) line.now) }
{
    Ok(line.split(|b| *b == b' ').collect(alloc)?)
}
