//! Readers of parameters and of what makes a declaration an operation.
ghost use Rattle.std.specs.Prelude.{◌≡◌, ℕ, ◌<◌, ◌≤◌, ◌++◌, List, [], ◌∷◌, IfOk, length};
ghost use Rattle.idl_tokens.specs.Checks.{heads};
ghost use Rattle.idl_tokens.specs.declared.kinds.Token.{Token};
ghost use Rattle.idl_tokens.specs.declared.marks.Mark.TheVariants as marks;
ghost use Rattle.idl_tokens.specs.declared.marks.Bracket.TheVariants as brackets;
ghost use Rattle.idl_tokens.specs.Terminals.{terminals};
ghost use Rattle.idl_tree.specs.Grammar.{param as param_part};
ghost use Rattle.idl_tree.specs.Pieces.{Written, mark_pieces, ident_pieces, commas, within};
ghost use Rattle.idl_tree.specs.Files.{param_pieces, params_pieces};
ghost use Rattle.idl_parts.specs.Reads.{Gives};
ghost use Rattle.idl_parts.specs.Along.{more_of};
ghost use Rattle.idl_reader.specs.Along.{param_at, comma_param_at, params_start, void_first_at, params_at, op_rest_at};

use crate::{attrs, spec};
use idl_parts::{Stop, dtor, is_mark, is_next, is_word, mark, name, open, place, shut, word};
use idl_tokens::{Bracket, Mark, Token, Word, class};
use idl_tree::{Ident, ParamNode, Spec, SpecKind};
use std::alloc::Global;

/// Reads a parameter.
#[tactic(auto, using(idl_tree::proofs::Writing::writing), unfolding(crate::specs::Along::param_at, idl_tree::specs::Files::param_pieces))]
fn param(alloc: Global, tokens: &[Token]) -> Result<(ParamNode, &[Token]), Stop<'_>>
    ensures along { Gives (λ p. p.1.now) result (param_at (terminals tokens.now)) }
    ensures written { IfOk result (λ p. Written (param_pieces p.0) tokens.now p.1.now) }
    ensures shorter { IfOk result (λ p. length p.1.now < length tokens.now) }
{
    let (attrs, rest) = attrs(alloc, tokens)?;
    let (spec, rest) = spec(alloc, rest)?;
    let (dtor, rest) = dtor(alloc, rest)?;
    Ok((ParamNode { attrs, spec, dtor }, rest))
}

/// Reads a comma and a parameter.
#[tactic(auto, using(idl_tree::proofs::Writing::writing), unfolding(crate::specs::Along::comma_param_at))]
fn comma_param(alloc: Global, tokens: &[Token]) -> Result<(ParamNode, &[Token]), Stop<'_>>
    ensures along { Gives (λ p. p.1.now) result (comma_param_at (terminals tokens.now)) }
    ensures written { IfOk result (λ p. Written (mark_pieces marks.Comma ++ param_pieces p.0) tokens.now p.1.now) }
    ensures shorter { IfOk result (λ p. length p.1.now < length tokens.now) }
{
    let rest = mark(tokens, Mark::Comma)?;
    let (param, rest) = param(alloc, rest)?;
    Ok((param, rest))
}

/// Reads further parameters behind the first one, each with a comma before it.
#[tactic(auto, using(crate::proofs::Loops::params))]
fn further_params(
    alloc: Global,
    first: ParamNode,
    tokens: &[Token],
) -> Result<(Vec<ParamNode>, &[Token]), Stop<'_>>
    ensures along { Gives (λ p. p.1.now) result (more_of param_part (terminals tokens.now)) }
    ensures written { IfOk result (λ p. (before : List Token) → Written (param_pieces first) before tokens.now → Written (commas param_pieces p.0.items) before p.1.now) }
    ensures shorter { IfOk result (λ p. length p.1.now ≤ length tokens.now) }
{
    let mut list = Vec::new(alloc);
    list.push(first)?;
    let mut rest = tokens;
    'more: while is_mark(rest, Mark::Comma) {
        let (next, after) = comma_param(alloc, rest)?;
        list.push(next)?;
        rest = after;
    }
    Ok((list, rest))
}

/// Whether parameters, or the word `void`, may begin here.
fn starts_params(tokens: &[Token]) -> bool
    ensures { result ≡ heads params_start (terminals tokens.now) }
{
    is_next(
        tokens,
        &[
            class::VOID,
            class::OPEN_SQUARE,
            class::STRUCT,
            class::UNION,
            class::ENUM,
            class::NAME,
            class::RANGE,
            class::HANDLE_T,
            class::ERROR_STATUS_T,
            class::BOOLEAN,
            class::BYTE,
            class::UNSIGNED,
            class::CHAR,
            class::SMALL,
            class::SHORT,
            class::LONG,
            class::HYPER,
        ],
    )
}

/// Reads the word `void` alone, or parameters of which the first one begins with it.
#[tactic(auto, using(crate::proofs::Loops::voids), unfolding(crate::specs::Along::void_first_at))]
fn void_first(alloc: Global, tokens: &[Token]) -> Result<(bool, Vec<ParamNode>, &[Token]), Stop<'_>>
    ensures along { Gives (λ p. p.2.now) result (void_first_at (terminals tokens.now)) }
    ensures written { IfOk result (λ p. Written (params_pieces p.0 p.1.items) tokens.now p.2.now) }
    ensures shorter { IfOk result (λ p. length p.2.now ≤ length tokens.now) }
{
    let at = place(tokens);
    let rest = word(tokens, Word::Void)?;
    if is_next(rest, &[class::STAR, class::NAME, class::RANGE]) {
        let (dtor, rest) = dtor(alloc, rest)?;
        let spec = Spec {
            at,
            what: SpecKind::Void,
        };
        let first = ParamNode {
            attrs: Vec::new(alloc),
            spec,
            dtor,
        };
        let (params, rest) = further_params(alloc, first, rest)?;
        Ok((false, params, rest))
    } else {
        Ok((true, Vec::new(alloc), rest))
    }
}

/// Reads what stands between the brackets of an operation.
#[tactic(auto, using(crate::proofs::Loops::voids), unfolding(crate::specs::Along::params_at))]
fn params(alloc: Global, tokens: &[Token]) -> Result<(bool, Vec<ParamNode>, &[Token]), Stop<'_>>
    ensures along { Gives (λ p. p.2.now) result (params_at (terminals tokens.now)) }
    ensures written { IfOk result (λ p. Written (params_pieces p.0 p.1.items) tokens.now p.2.now) }
    ensures shorter { IfOk result (λ p. length p.2.now ≤ length tokens.now) }
{
    if !starts_params(tokens) {
        Ok((false, Vec::new(alloc), tokens))
    } else if is_word(tokens, Word::Void) {
        void_first(alloc, tokens)
    } else {
        let (first, rest) = param(alloc, tokens)?;
        let (params, rest) = further_params(alloc, first, rest)?;
        Ok((false, params, rest))
    }
}

/// Reads an operation behind its spec: its name, whether its brackets have `void` alone, and its
/// parameters.
///
/// # Errors
///
/// `Stop::At` where the tokens depart; `Stop::Memory` where memory runs out.
#[tactic(auto, using(idl_tree::proofs::Writing::writing), unfolding(crate::specs::Along::op_rest_at))]
pub fn op_rest(
    alloc: Global,
    tokens: &[Token],
) -> Result<(Ident, bool, Vec<ParamNode>, &[Token]), Stop<'_>>
    ensures along { Gives (λ p. p.3.now) result (op_rest_at (terminals tokens.now)) }
    ensures written { IfOk result (λ p. Written (ident_pieces p.0 ++ (within brackets.Round (params_pieces p.1 p.2.items) ++ mark_pieces marks.Semicolon)) tokens.now p.3.now) }
    ensures shorter { IfOk result (λ p. length p.3.now < length tokens.now) }
{
    let (name, rest) = name(alloc, tokens)?;
    let rest = open(rest, Bracket::Round)?;
    let (void_word, params, rest) = params(alloc, rest)?;
    let rest = shut(rest, Bracket::Round)?;
    let rest = mark(rest, Mark::Semicolon)?;
    Ok((name, void_word, params, rest))
}
