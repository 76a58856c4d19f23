//! Texts.
ghost use Rattle.std.specs.Prelude.{◌≡◌, ◌+◌, ◌-◌, ◌≤◌, ◌==◌, ℕ, List, length, take, drop, position, IfOk, IsOkAnd, MatchResult, Result, Ok, Err};
ghost use Rattle.ndr_arrays.specs.Texts.{limit_at, counted_at, in_text, cells_at, before_nul, text_in, text_at, IsText};

use crate::counts::{CountFault, Counts, max_count, offset_and_count};
use rpc_base::Order;

/// Why a text could not be read.
#[derive(Clone, Copy, Debug, PartialEq, Eq)]
pub enum TextFault {
    /// The octets end before the last; how many there are.
    Short(usize),
    /// The word at that index is an offset that isn't 0, or an actual_count above the maximum.
    Bound(usize),
    /// There is no NUL in the text whose actual_count stands at that index.
    Text(usize),
}

// The counts in front of a text of that size, or of any.
fn counted(
    size: Option<u32>,
    order: Order,
    octets: &[u8],
    at: usize,
    moved: Option<u32>,
) -> Result<(Counts, usize), CountFault>
    ensures exact { result ≡ counted_at order octets.now size moved at }
    ensures place { IfOk result (λ x. 4 ≤ x.1) }
{
    let (most, after) = match size {
        Some(most) => (most, at),
        None => max_count(order, octets, at, moved)?,
    };
    offset_and_count(order, octets, after, most)
}

fn text_counts(
    size: Option<u32>,
    order: Order,
    octets: &[u8],
    at: usize,
    moved: Option<u32>,
) -> Result<(Counts, usize), TextFault>
    ensures exact { result ≡ in_text (counted_at order octets.now size moved at) }
    ensures place { IfOk result (λ x. 4 ≤ x.1) }
{
    match counted(size, order, octets, at, moved) {
        Ok(found) => Ok(found),
        Err(CountFault::Short(len)) => Err(TextFault::Short(len)),
        Err(CountFault::Bound(index)) => Err(TextFault::Bound(index)),
    }
}

// The cells, and the index after them.
fn cells(octets: &[u8], at: usize, count: u32) -> Result<(&[u8], usize), TextFault>
    ensures { MatchResult result (λ x. cells_at octets.now at count ≡ Ok (x.0.now, x.1)) (λ e. cells_at octets.now at count ≡ Err e) }
{
    if at > octets.len() || count as usize > octets.len() - at {
        return Err(TextFault::Short(octets.len()));
    }
    let count = count as usize;
    Ok((&octets[at..at + count], at + count))
}

fn first_nul(cells: &[u8]) -> Option<usize>
    ensures { result ≡ position (λ c. c == 0) cells.now }
{
    cells.iter().position(|c| *c == 0)
}

// What stands before the first NUL.
fn head(cells: &[u8], place: usize) -> Result<&[u8], TextFault>
    ensures { MatchResult result (λ x. before_nul cells.now place (position (λ c. c == 0) cells.now) ≡ Ok x.now) (λ e. before_nul cells.now place (position (λ c. c == 0) cells.now) ≡ Err e) }
{
    match first_nul(cells) {
        None => Err(TextFault::Text(place)),
        Some(count) => Ok(&cells[..count]),
    }
}

/// The octets of a text before its first NUL, and the index after the last that was counted. `size`
/// is the size of its array where that is fixed, `moved` a max_count that stood in front of the
/// outermost structure. It takes no memory.
///
/// # Errors
///
/// `Short` where the octets end before the last that is counted: how many there are. `Bound` where an
/// offset isn't 0 or the actual_count is above the maximum: the index of that word. `Text` where no NUL
/// stands among those that are counted: the index of their actual_count.
pub fn read_text(
    size: Option<u32>,
    order: Order,
    octets: &[u8],
    at: usize,
    moved: Option<u32>,
) -> Result<(&[u8], usize), TextFault>
    // What is read stands there, and what stands there is read.
    ensures found { IfOk result (λ x. IsText order octets.now size moved x.0.now at x.1) }
    ensures only { (text : List ℕ) (j : ℕ) → IsText order octets.now size moved text at j → IsOkAnd result (λ x. (x.0.now ≡ text) × (x.1 ≡ j)) }
    // Which departure it is.
    ensures exact { MatchResult result (λ x. text_at order octets.now size moved at ≡ Ok (x.0.now, x.1)) (λ e. text_at order octets.now size moved at ≡ Err e) }
{
    text_from(size, order, octets, at, moved)
}

fn text_from(
    size: Option<u32>,
    order: Order,
    octets: &[u8],
    at: usize,
    moved: Option<u32>,
) -> Result<(&[u8], usize), TextFault>
    ensures { MatchResult result (λ x. text_at order octets.now size moved at ≡ Ok (x.0.now, x.1)) (λ e. text_at order octets.now size moved at ≡ Err e) }
{
    let (counts, after) = text_counts(size, order, octets, at, moved)?;
    let (found, end) = cells(octets, after, counts.actual)?;
    Ok((head(found, after - 4)?, end))
}
