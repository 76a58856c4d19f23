//! Readers of declarators and lists of names.
ghost use Rattle.std.specs.Prelude.{◌+◌, ◌<◌, ◌≤◌, ◌++◌, IfOk, length};
ghost use Rattle.idl_tokens.specs.declared.marks.Mark.TheVariants as marks;
ghost use Rattle.idl_tokens.specs.declared.marks.Bracket.TheVariants as brackets;
ghost use Rattle.idl_tokens.specs.Terminals.{terminals};
ghost use Rattle.idl_tree.specs.Pieces.{Written, size_pieces, array_pieces, star_pieces, dtor_pieces, mark_pieces, ident_pieces, within};
ghost use Rattle.idl_tree.specs.Trees.{dtors_pieces, names_pieces};
ghost use Rattle.idl_parts.specs.Reads.{Gives};
ghost use Rattle.idl_parts.specs.Along.{array_size_at, array_at, stars_at, dtor_at, comma_dtor_at, dtors_at, comma_name_at, names_at, enum_body_at};

use crate::stop::Stop;
use crate::take::{is_mark, is_name, is_next, is_number, is_open, mark, name, number, open, shut};
use idl_tokens::{Bracket, Mark, Token, class};
use idl_tree::{ArraySize, Dtor, Ident};
use std::alloc::Global;

/// Reads what stands between the brackets of an array.
#[tactic(auto, using(crate::proofs::Parts::writing), unfolding(crate::specs::Along::array_size_at, idl_tree::specs::Pieces::size_pieces))]
fn array_size(alloc: Global, tokens: &[Token]) -> Result<(ArraySize, &[Token]), Stop<'_>>
    ensures along { Gives (λ p. p.1.now) result (array_size_at (terminals tokens.now)) }
    ensures written { IfOk result (λ p. Written (size_pieces p.0) tokens.now p.1.now) }
    ensures shorter { IfOk result (λ p. length p.1.now ≤ length tokens.now) }
{
    if !is_next(
        tokens,
        &[class::NUMBER, class::NAME, class::RANGE, class::STAR],
    ) {
        Ok((ArraySize::Empty, tokens))
    } else if is_number(tokens) {
        let (value, rest) = number(tokens, u64::MAX)?;
        Ok((ArraySize::Number(value), rest))
    } else if is_name(tokens) {
        let (name, rest) = name(alloc, tokens)?;
        Ok((ArraySize::Named(name), rest))
    } else {
        let rest = mark(tokens, Mark::Star)?;
        Ok((ArraySize::Star, rest))
    }
}

/// Reads the brackets of an array, if they stand there.
#[tactic(auto, using(crate::proofs::Parts::writing), unfolding(crate::specs::Along::array_at, idl_tree::specs::Pieces::array_pieces))]
fn array(alloc: Global, tokens: &[Token]) -> Result<(Option<ArraySize>, &[Token]), Stop<'_>>
    ensures along { Gives (λ p. p.1.now) result (array_at (terminals tokens.now)) }
    ensures written { IfOk result (λ p. Written (array_pieces p.0) tokens.now p.1.now) }
    ensures shorter { IfOk result (λ p. length p.1.now ≤ length tokens.now) }
{
    if is_open(tokens, Bracket::Square) {
        let rest = open(tokens, Bracket::Square)?;
        let (size, rest) = array_size(alloc, rest)?;
        let rest = shut(rest, Bracket::Square)?;
        Ok((Some(size), rest))
    } else {
        Ok((None, tokens))
    }
}

/// Reads stars, and gives their number.
#[tactic(auto, using(crate::proofs::Loops::stars))]
fn stars(tokens: &[Token]) -> Result<(usize, &[Token]), Stop<'_>>
    ensures along { Gives (λ p. p.1.now) result (stars_at (terminals tokens.now)) }
    ensures written { IfOk result (λ p. Written (star_pieces p.0) tokens.now p.1.now) }
    ensures shorter { IfOk result (λ p. length p.1.now ≤ length tokens.now) }
{
    let mut count = 0;
    let mut rest = tokens;
    'more: while is_mark(rest, Mark::Star) {
        rest = mark(rest, Mark::Star)?;
        count += 1;
    }
    Ok((count, rest))
}

/// Reads a declarator.
///
/// # Errors
///
/// `Stop::At` where the tokens depart; `Stop::Memory` where memory runs out.
#[tactic(auto, using(crate::proofs::Parts::writing), unfolding(crate::specs::Along::dtor_at, idl_tree::specs::Pieces::dtor_pieces))]
pub fn dtor(alloc: Global, tokens: &[Token]) -> Result<(Dtor, &[Token]), Stop<'_>>
    ensures along { Gives (λ p. p.1.now) result (dtor_at (terminals tokens.now)) }
    ensures written { IfOk result (λ p. Written (dtor_pieces p.0) tokens.now p.1.now) }
    ensures shorter { IfOk result (λ p. length p.1.now < length tokens.now) }
{
    let (stars, rest) = stars(tokens)?;
    let (name, rest) = name(alloc, rest)?;
    let (array, rest) = array(alloc, rest)?;
    Ok((Dtor { stars, name, array }, rest))
}

/// Reads a comma and a declarator.
#[tactic(auto, using(crate::proofs::Parts::writing), unfolding(crate::specs::Along::comma_dtor_at))]
fn comma_dtor(alloc: Global, tokens: &[Token]) -> Result<(Dtor, &[Token]), Stop<'_>>
    ensures along { Gives (λ p. p.1.now) result (comma_dtor_at (terminals tokens.now)) }
    ensures written { IfOk result (λ p. Written (mark_pieces marks.Comma ++ dtor_pieces p.0) tokens.now p.1.now) }
    ensures shorter { IfOk result (λ p. length p.1.now < length tokens.now) }
{
    let rest = mark(tokens, Mark::Comma)?;
    let (dtor, rest) = dtor(alloc, rest)?;
    Ok((dtor, rest))
}

/// Reads declarators with commas between them.
///
/// # Errors
///
/// `Stop::At` where the tokens depart; `Stop::Memory` where memory runs out.
#[tactic(auto, using(crate::proofs::Loops::dtors), unfolding(crate::specs::Along::dtors_at))]
pub fn dtors(alloc: Global, tokens: &[Token]) -> Result<(Vec<Dtor>, &[Token]), Stop<'_>>
    ensures along { Gives (λ p. p.1.now) result (dtors_at (terminals tokens.now)) }
    ensures written { IfOk result (λ p. Written (dtors_pieces p.0.items) tokens.now p.1.now) }
    ensures shorter { IfOk result (λ p. length p.1.now < length tokens.now) }
{
    let (first, rest) = dtor(alloc, tokens)?;
    let mut list = Vec::new(alloc);
    list.push(first)?;
    let mut rest = rest;
    'more: while is_mark(rest, Mark::Comma) {
        let (next, after) = comma_dtor(alloc, rest)?;
        list.push(next)?;
        rest = after;
    }
    Ok((list, rest))
}

/// Reads a comma and a name.
#[tactic(auto, using(crate::proofs::Parts::writing), unfolding(crate::specs::Along::comma_name_at))]
fn comma_name(alloc: Global, tokens: &[Token]) -> Result<(Ident, &[Token]), Stop<'_>>
    ensures along { Gives (λ p. p.1.now) result (comma_name_at (terminals tokens.now)) }
    ensures written { IfOk result (λ p. Written (mark_pieces marks.Comma ++ ident_pieces p.0) tokens.now p.1.now) }
    ensures shorter { IfOk result (λ p. length p.1.now < length tokens.now) }
{
    let rest = mark(tokens, Mark::Comma)?;
    let (name, rest) = name(alloc, rest)?;
    Ok((name, rest))
}

/// Reads names with commas between them.
#[tactic(auto, using(crate::proofs::Loops::names), unfolding(crate::specs::Along::names_at))]
fn names(alloc: Global, tokens: &[Token]) -> Result<(Vec<Ident>, &[Token]), Stop<'_>>
    ensures along { Gives (λ p. p.1.now) result (names_at (terminals tokens.now)) }
    ensures written { IfOk result (λ p. Written (names_pieces p.0.items) tokens.now p.1.now) }
    ensures shorter { IfOk result (λ p. length p.1.now < length tokens.now) }
{
    let (first, rest) = name(alloc, tokens)?;
    let mut list = Vec::new(alloc);
    list.push(first)?;
    let mut rest = rest;
    'more: while is_mark(rest, Mark::Comma) {
        let (next, after) = comma_name(alloc, rest)?;
        list.push(next)?;
        rest = after;
    }
    Ok((list, rest))
}

/// Reads the names of an enum, in their brackets.
///
/// # Errors
///
/// `Stop::At` where the tokens depart; `Stop::Memory` where memory runs out.
#[tactic(auto, using(crate::proofs::Parts::writing), unfolding(crate::specs::Along::enum_body_at))]
pub fn enum_body(alloc: Global, tokens: &[Token]) -> Result<(Vec<Ident>, &[Token]), Stop<'_>>
    ensures along { Gives (λ p. p.1.now) result (enum_body_at (terminals tokens.now)) }
    ensures written { IfOk result (λ p. Written (within brackets.Curly (names_pieces p.0.items)) tokens.now p.1.now) }
    ensures shorter { IfOk result (λ p. length p.1.now < length tokens.now) }
{
    let rest = open(tokens, Bracket::Curly)?;
    let (names, rest) = names(alloc, rest)?;
    let rest = shut(rest, Bracket::Curly)?;
    Ok((names, rest))
}
