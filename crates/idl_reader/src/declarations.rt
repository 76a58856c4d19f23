//! Readers of declarations.
ghost use Rattle.std.specs.Prelude.{◌≡◌, ℕ, ◌<◌, ◌≤◌, ◌++◌, List, [], ◌∷◌, IfOk, length};
ghost use Rattle.std.specs.List.{flat_map};
ghost use Rattle.idl_tokens.specs.Checks.{heads};
ghost use Rattle.idl_tokens.specs.declared.kinds.Token.{Token};
ghost use Rattle.idl_tokens.specs.declared.marks.Bracket.TheVariants as brackets;
ghost use Rattle.idl_tokens.specs.Terminals.{terminals};
ghost use Rattle.idl_tree.specs.Pieces.{Written, within};
ghost use Rattle.idl_tree.specs.Trees.{attrs_pieces};
ghost use Rattle.idl_tree.specs.Files.{decl_kind_pieces, decl_pieces};
ghost use Rattle.idl_parts.specs.Reads.{Gives};
ghost use Rattle.idl_reader.specs.Along.{is_tagged as has_tag_next, lone_or_op_at, const_decl_at, typedef_decl_at, decl_at, decl_start, decl_body_at};

use crate::operations::op_rest;
use crate::{attrs, spec};
use idl_parts::{
    Stop, base, dtors, is_mark, is_next, is_word, mark, name, open, place, shut, signed, word,
};
use idl_tokens::{Bracket, Mark, Token, Word, class};
use idl_tree::{Attr, Decl, DeclKind};
use std::alloc::Global;

/// Reads a constant.
#[tactic(auto, using(idl_tree::proofs::Writing::writing), unfolding(crate::specs::Along::const_decl_at, idl_tree::specs::Files::decl_kind_pieces))]
fn const_decl(alloc: Global, tokens: &[Token]) -> Result<(DeclKind, &[Token]), Stop<'_>>
    ensures along { Gives (λ p. p.1.now) result (const_decl_at (terminals tokens.now)) }
    ensures written { IfOk result (λ p. Written (decl_kind_pieces p.0) tokens.now p.1.now) }
    ensures shorter { IfOk result (λ p. length p.1.now < length tokens.now) }
{
    let rest = word(tokens, Word::Const)?;
    let (base, rest) = base(rest)?;
    let (name, rest) = name(alloc, rest)?;
    let rest = mark(rest, Mark::Equals)?;
    let (value, rest) = signed(rest)?;
    let rest = mark(rest, Mark::Semicolon)?;
    Ok((DeclKind::Const { base, name, value }, rest))
}

/// Reads a typedef.
#[tactic(auto, using(idl_tree::proofs::Writing::writing), unfolding(crate::specs::Along::typedef_decl_at, idl_tree::specs::Files::decl_kind_pieces))]
fn typedef_decl(alloc: Global, tokens: &[Token]) -> Result<(DeclKind, &[Token]), Stop<'_>>
    ensures along { Gives (λ p. p.1.now) result (typedef_decl_at (terminals tokens.now)) }
    ensures written { IfOk result (λ p. Written (decl_kind_pieces p.0) tokens.now p.1.now) }
    ensures shorter { IfOk result (λ p. length p.1.now < length tokens.now) }
{
    let rest = word(tokens, Word::Typedef)?;
    let (attrs, rest) = attrs(alloc, rest)?;
    let (spec, rest) = spec(alloc, rest)?;
    let (dtors, rest) = dtors(alloc, rest)?;
    let rest = mark(rest, Mark::Semicolon)?;
    Ok((DeclKind::Typedef { attrs, spec, dtors }, rest))
}

/// Whether a structure, union or enum and its tag come next.
fn is_tagged(tokens: &[Token]) -> bool
    ensures { result ≡ has_tag_next (terminals tokens.now) }
{
    match tokens.split_first() {
        None => false,
        Some((_, rest)) => is_next(tokens, &[class::STRUCT, class::UNION, class::ENUM])
            && is_next(rest, &[class::NAME, class::RANGE]),
    }
}

/// Reads a declaration of a structure, union or enum alone, or an operation, behind its attributes.
#[tactic(auto, using(idl_tree::proofs::Writing::writing), unfolding(crate::specs::Along::lone_or_op_at, crate::specs::Along::tail_at, idl_tree::specs::Files::decl_kind_pieces))]
fn lone_or_op(
    alloc: Global,
    attrs: Vec<Attr>,
    tokens: &[Token],
) -> Result<(DeclKind, &[Token]), Stop<'_>>
    ensures along { Gives (λ p. p.1.now) result (lone_or_op_at (terminals tokens.now)) }
    ensures written { IfOk result (λ p. (before : List Token) → Written (attrs_pieces attrs.items) before tokens.now → Written (decl_kind_pieces p.0) before p.1.now) }
    ensures shorter { IfOk result (λ p. length p.1.now < length tokens.now) }
{
    let tagged = is_tagged(tokens);
    let (spec, rest) = spec(alloc, tokens)?;
    if tagged && is_mark(rest, Mark::Semicolon) {
        let rest = mark(rest, Mark::Semicolon)?;
        Ok((DeclKind::Lone { attrs, spec }, rest))
    } else {
        let (name, void_word, params, rest) = op_rest(alloc, rest)?;
        Ok((
            DeclKind::Op {
                attrs,
                spec,
                name,
                void_word,
                params,
            },
            rest,
        ))
    }
}

/// Reads a declaration up to what it says.
#[tactic(auto, using(idl_tree::proofs::Writing::writing), unfolding(crate::specs::Along::decl_at))]
fn decl_kind(alloc: Global, tokens: &[Token]) -> Result<(DeclKind, &[Token]), Stop<'_>>
    ensures along { Gives (λ p. p.1.now) result (decl_at (terminals tokens.now)) }
    ensures written { IfOk result (λ p. Written (decl_kind_pieces p.0) tokens.now p.1.now) }
    ensures shorter { IfOk result (λ p. length p.1.now < length tokens.now) }
{
    if is_word(tokens, Word::Const) {
        const_decl(alloc, tokens)
    } else if is_word(tokens, Word::Typedef) {
        typedef_decl(alloc, tokens)
    } else {
        let (attrs, rest) = attrs(alloc, tokens)?;
        let (what, rest) = lone_or_op(alloc, attrs, rest)?;
        Ok((what, rest))
    }
}

/// Reads a declaration.
#[tactic(auto, using(idl_tree::proofs::Writing::writing), unfolding(idl_tree::specs::Files::decl_pieces))]
fn decl(alloc: Global, tokens: &[Token]) -> Result<(Decl, &[Token]), Stop<'_>>
    ensures along { Gives (λ p. p.1.now) result (decl_at (terminals tokens.now)) }
    ensures written { IfOk result (λ p. Written (decl_pieces p.0) tokens.now p.1.now) }
    ensures shorter { IfOk result (λ p. length p.1.now < length tokens.now) }
{
    let at = place(tokens);
    let (what, rest) = decl_kind(alloc, tokens)?;
    Ok((Decl { at, what }, rest))
}

/// Whether a declaration may begin here.
fn starts_decl(tokens: &[Token]) -> bool
    ensures { result ≡ heads decl_start (terminals tokens.now) }
{
    is_next(
        tokens,
        &[
            class::CONST,
            class::TYPEDEF,
            class::OPEN_SQUARE,
            class::STRUCT,
            class::UNION,
            class::ENUM,
            class::VOID,
            class::NAME,
            class::RANGE,
            class::HANDLE_T,
            class::ERROR_STATUS_T,
            class::BOOLEAN,
            class::BYTE,
            class::UNSIGNED,
            class::CHAR,
            class::SMALL,
            class::SHORT,
            class::LONG,
            class::HYPER,
        ],
    )
}

/// Reads the declarations of the interface, in their brackets.
///
/// # Errors
///
/// `Stop::At` where the tokens depart; `Stop::Memory` where memory runs out.
#[tactic(auto, using(crate::proofs::Loops::decls), unfolding(crate::specs::Along::decl_body_at))]
pub fn decls(alloc: Global, tokens: &[Token]) -> Result<(Vec<Decl>, &[Token]), Stop<'_>>
    ensures along { Gives (λ p. p.1.now) result (decl_body_at (terminals tokens.now)) }
    ensures written { IfOk result (λ p. Written (within brackets.Curly (flat_map decl_pieces p.0.items)) tokens.now p.1.now) }
    ensures shorter { IfOk result (λ p. length p.1.now < length tokens.now) }
{
    let rest = open(tokens, Bracket::Curly)?;
    let mut list = Vec::new(alloc);
    let mut rest = rest;
    'more: while starts_decl(rest) {
        let (next, after) = decl(alloc, rest)?;
        list.push(next)?;
        rest = after;
    }
    let rest = shut(rest, Bracket::Curly)?;
    Ok((list, rest))
}
