//! Readers of the attributes that hold no spec, and of labels.
ghost use Rattle.std.specs.Prelude.{◌<◌, ◌++◌, IfOk, length};
ghost use Rattle.std.specs.List.{flat_map};
ghost use Rattle.idl_tokens.specs.declared.marks.Mark.TheVariants as marks;
ghost use Rattle.idl_tokens.specs.declared.marks.Bracket.TheVariants as brackets;
ghost use Rattle.idl_tokens.specs.Terminals.{terminals};
ghost use Rattle.idl_tree.specs.Pieces.{Written, ident_pieces, ref_pieces, bounds_pieces, if_mark, within};
ghost use Rattle.idl_tree.specs.Trees.{attr_kind_pieces, label_pieces, label_kind_pieces};
ghost use Rattle.idl_parts.specs.Reads.{Gives};
ghost use Rattle.idl_parts.specs.Along.{in_round, star_name_at, size_ref_at, plain_attr_at, size_attr_at, switch_is_at, bounds_at, range_attr_at, case_label_at, label_at, labels_at};

use crate::basic::signed;
use crate::stop::Stop;
use crate::take::{
    is_next, is_number, is_word, mark, mark_or_none, name, number, open, place, range_word, shut,
    word, word_among,
};
use idl_tokens::{Bracket, Mark, Token, Word, class};
use idl_tree::{AttrKind, Ident, Label, LabelKind, Num, Pk, SizeRef};
use std::alloc::Global;

/// Reads a name that may have a star.
#[tactic(auto, using(crate::proofs::Parts::writing), unfolding(crate::specs::Along::star_name_at))]
fn star_name(alloc: Global, tokens: &[Token]) -> Result<(bool, Ident, &[Token]), Stop<'_>>
    ensures along { Gives (λ p. p.2.now) result (star_name_at (terminals tokens.now)) }
    ensures written { IfOk result (λ p. Written (if_mark p.0 marks.Star ++ ident_pieces p.1) tokens.now p.2.now) }
    ensures shorter { IfOk result (λ p. length p.2.now < length tokens.now) }
{
    let (star, rest) = mark_or_none(tokens, Mark::Star)?;
    let (name, rest) = name(alloc, rest)?;
    Ok((star, name, rest))
}

/// Reads what is given as a size.
#[tactic(auto, using(crate::proofs::Parts::writing), unfolding(crate::specs::Along::size_ref_at, idl_tree::specs::Pieces::ref_pieces))]
fn size_ref(alloc: Global, tokens: &[Token]) -> Result<(SizeRef, &[Token]), Stop<'_>>
    ensures along { Gives (λ p. p.1.now) result (size_ref_at (terminals tokens.now)) }
    ensures written { IfOk result (λ p. Written (ref_pieces p.0) tokens.now p.1.now) }
    ensures shorter { IfOk result (λ p. length p.1.now < length tokens.now) }
{
    if is_number(tokens) {
        let (value, rest) = number(tokens, u64::MAX)?;
        Ok((SizeRef::Number(value), rest))
    } else {
        let (star, name, rest) = star_name(alloc, tokens)?;
        Ok((SizeRef::Named { star, name }, rest))
    }
}

/// Reads what is given as a size, in its brackets.
#[tactic(auto, using(crate::proofs::Parts::writing))]
fn size_in_brackets(alloc: Global, tokens: &[Token]) -> Result<(SizeRef, &[Token]), Stop<'_>>
    ensures along { Gives (λ p. p.1.now) result (in_round size_ref_at (terminals tokens.now)) }
    ensures written { IfOk result (λ p. Written (within brackets.Round (ref_pieces p.0)) tokens.now p.1.now) }
    ensures shorter { IfOk result (λ p. length p.1.now < length tokens.now) }
{
    let rest = open(tokens, Bracket::Round)?;
    let (size, rest) = size_ref(alloc, rest)?;
    let rest = shut(rest, Bracket::Round)?;
    Ok((size, rest))
}

/// Reads an attribute of one word.
///
/// # Errors
///
/// `Stop::At` where the tokens depart.
#[tactic(auto, using(crate::proofs::Parts::plain_attrs), unfolding(crate::specs::Along::plain_attr_at, idl_tree::specs::Pieces::pk_pieces, idl_tree::specs::Pieces::pk_word))]
pub fn plain_attr(tokens: &[Token]) -> Result<(AttrKind, &[Token]), Stop<'_>>
    ensures along { Gives (λ p. p.1.now) result (plain_attr_at (terminals tokens.now)) }
    ensures written { IfOk result (λ p. Written (attr_kind_pieces p.0) tokens.now p.1.now) }
    ensures shorter { IfOk result (λ p. length p.1.now < length tokens.now) }
{
    let (word, rest) = word_among(
        tokens,
        &[
            Word::In,
            Word::Out,
            Word::Ref,
            Word::Unique,
            Word::Ptr,
            Word::String,
            Word::Idempotent,
            Word::Maybe,
            Word::ContextHandle,
            Word::ContextHandleSerialize,
            Word::ContextHandleNoserialize,
        ],
    )?;
    match word {
        Word::In => Ok((AttrKind::In, rest)),
        Word::Out => Ok((AttrKind::Out, rest)),
        Word::Ref => Ok((AttrKind::Pointer(Pk::Ref), rest)),
        Word::Unique => Ok((AttrKind::Pointer(Pk::Unique), rest)),
        Word::Ptr => Ok((AttrKind::Pointer(Pk::Ptr), rest)),
        Word::String => Ok((AttrKind::Text, rest)),
        Word::Idempotent => Ok((AttrKind::Idempotent, rest)),
        Word::Maybe => Ok((AttrKind::Maybe, rest)),
        Word::ContextHandle => Ok((AttrKind::Handle, rest)),
        Word::ContextHandleSerialize => Ok((AttrKind::HandleSerialize, rest)),
        Word::ContextHandleNoserialize => Ok((AttrKind::HandleNoserialize, rest)),
        _ => unreachable!(),
    }
}

/// Reads `size_is`, `max_is` or `length_is`, with its size.
///
/// # Errors
///
/// `Stop::At` where the tokens depart; `Stop::Memory` where memory runs out.
#[tactic(auto, using(crate::proofs::Parts::size_attrs), unfolding(crate::specs::Along::size_attr_at))]
pub fn size_attr(alloc: Global, tokens: &[Token]) -> Result<(AttrKind, &[Token]), Stop<'_>>
    ensures along { Gives (λ p. p.1.now) result (size_attr_at (terminals tokens.now)) }
    ensures written { IfOk result (λ p. Written (attr_kind_pieces p.0) tokens.now p.1.now) }
    ensures shorter { IfOk result (λ p. length p.1.now < length tokens.now) }
{
    let (word, rest) = word_among(tokens, &[Word::SizeIs, Word::MaxIs, Word::LengthIs])?;
    let (size, rest) = size_in_brackets(alloc, rest)?;
    match word {
        Word::SizeIs => Ok((AttrKind::SizeIs(size), rest)),
        Word::MaxIs => Ok((AttrKind::MaxIs(size), rest)),
        Word::LengthIs => Ok((AttrKind::LengthIs(size), rest)),
        _ => unreachable!(),
    }
}

/// Reads `switch_is`, with its name.
///
/// # Errors
///
/// `Stop::At` where the tokens depart; `Stop::Memory` where memory runs out.
#[tactic(auto, using(crate::proofs::Parts::size_attrs), unfolding(crate::specs::Along::switch_is_at))]
pub fn switch_is(alloc: Global, tokens: &[Token]) -> Result<(AttrKind, &[Token]), Stop<'_>>
    ensures along { Gives (λ p. p.1.now) result (switch_is_at (terminals tokens.now)) }
    ensures written { IfOk result (λ p. Written (attr_kind_pieces p.0) tokens.now p.1.now) }
    ensures shorter { IfOk result (λ p. length p.1.now < length tokens.now) }
{
    let rest = word(tokens, Word::SwitchIs)?;
    let rest = open(rest, Bracket::Round)?;
    let (star, name, rest) = star_name(alloc, rest)?;
    let rest = shut(rest, Bracket::Round)?;
    Ok((AttrKind::SwitchIs { star, name }, rest))
}

/// Reads the bounds of a range.
#[tactic(auto, using(crate::proofs::Parts::writing), unfolding(crate::specs::Along::bounds_at, idl_tree::specs::Pieces::bounds_pieces))]
fn bounds(tokens: &[Token]) -> Result<(Num, Num, &[Token]), Stop<'_>>
    ensures along { Gives (λ p. p.2.now) result (bounds_at (terminals tokens.now)) }
    ensures written { IfOk result (λ p. Written (bounds_pieces p.0 p.1) tokens.now p.2.now) }
    ensures shorter { IfOk result (λ p. length p.2.now < length tokens.now) }
{
    let (low, rest) = signed(tokens)?;
    let rest = mark(rest, Mark::Comma)?;
    let (high, rest) = signed(rest)?;
    Ok((low, high, rest))
}

/// Reads `range`, with its bounds.
///
/// # Errors
///
/// `Stop::At` where the tokens depart.
#[tactic(auto, using(crate::proofs::Parts::size_attrs), unfolding(crate::specs::Along::range_attr_at))]
pub fn range(tokens: &[Token]) -> Result<(AttrKind, &[Token]), Stop<'_>>
    ensures along { Gives (λ p. p.1.now) result (range_attr_at (terminals tokens.now)) }
    ensures written { IfOk result (λ p. Written (attr_kind_pieces p.0) tokens.now p.1.now) }
    ensures shorter { IfOk result (λ p. length p.1.now < length tokens.now) }
{
    let rest = range_word(tokens)?;
    let rest = open(rest, Bracket::Round)?;
    let (low, high, rest) = bounds(rest)?;
    let rest = shut(rest, Bracket::Round)?;
    Ok((AttrKind::Range(low, high), rest))
}

/// Reads a label behind its `case` up to its colon.
#[tactic(auto, using(crate::proofs::Parts::writing), unfolding(crate::specs::Along::case_label_at, crate::specs::Along::case_value_at, idl_tree::specs::Trees::label_kind_pieces))]
fn case_label(alloc: Global, tokens: &[Token]) -> Result<(LabelKind, &[Token]), Stop<'_>>
    ensures along { Gives (λ p. p.1.now) result (case_label_at (terminals tokens.now)) }
    ensures written { IfOk result (λ p. Written (label_kind_pieces p.0) tokens.now p.1.now) }
    ensures shorter { IfOk result (λ p. length p.1.now < length tokens.now) }
{
    let rest = word(tokens, Word::Case)?;
    if is_next(rest, &[class::MINUS, class::NUMBER]) {
        let (value, rest) = signed(rest)?;
        let rest = mark(rest, Mark::Colon)?;
        Ok((LabelKind::Number(value), rest))
    } else {
        let (name, rest) = name(alloc, rest)?;
        let rest = mark(rest, Mark::Colon)?;
        Ok((LabelKind::Named(name), rest))
    }
}

/// Reads a label of an arm.
#[tactic(auto, using(crate::proofs::Parts::writing), unfolding(crate::specs::Along::label_at, idl_tree::specs::Trees::label_pieces, idl_tree::specs::Trees::label_kind_pieces))]
fn label(alloc: Global, tokens: &[Token]) -> Result<(Label, &[Token]), Stop<'_>>
    ensures along { Gives (λ p. p.1.now) result (label_at (terminals tokens.now)) }
    ensures written { IfOk result (λ p. Written (label_pieces p.0) tokens.now p.1.now) }
    ensures shorter { IfOk result (λ p. length p.1.now < length tokens.now) }
{
    let at = place(tokens);
    if is_word(tokens, Word::Case) {
        let (what, rest) = case_label(alloc, tokens)?;
        Ok((Label { at, what }, rest))
    } else {
        let rest = word(tokens, Word::Default)?;
        let rest = mark(rest, Mark::Colon)?;
        Ok((
            Label {
                at,
                what: LabelKind::Default,
            },
            rest,
        ))
    }
}

/// Reads the labels of an arm.
///
/// # Errors
///
/// `Stop::At` where the tokens depart; `Stop::Memory` where memory runs out.
#[tactic(auto, using(crate::proofs::Loops::labels), unfolding(crate::specs::Along::labels_at))]
pub fn labels(alloc: Global, tokens: &[Token]) -> Result<(Vec<Label>, &[Token]), Stop<'_>>
    ensures along { Gives (λ p. p.1.now) result (labels_at (terminals tokens.now)) }
    ensures written { IfOk result (λ p. Written (flat_map label_pieces p.0.items) tokens.now p.1.now) }
    ensures shorter { IfOk result (λ p. length p.1.now < length tokens.now) }
{
    let (first, rest) = label(alloc, tokens)?;
    let mut list = Vec::new(alloc);
    list.push(first)?;
    let mut rest = rest;
    'more: while is_next(rest, &[class::CASE, class::DEFAULT]) {
        let (next, after) = label(alloc, rest)?;
        list.push(next)?;
        rest = after;
    }
    Ok((list, rest))
}
