//! Readers of type specs and what they hold, which call one another. Each turn passes a bracket,
//! and brackets nest to level 64 alone, so the recursion is bounded.
ghost use Rattle.std.specs.Prelude.{◌≡◌, ◌<◌, ◌≤◌, List, IfOk, length};
ghost use Rattle.std.specs.List.{flat_map};
ghost use Rattle.idl_tokens.specs.Machine.{parse};
ghost use Rattle.idl_tokens.specs.declared.kinds.Token.{Token};
ghost use Rattle.idl_tokens.specs.declared.words.Word.TheVariants as words;
ghost use Rattle.idl_tokens.specs.declared.marks.Bracket.TheVariants as brackets;
ghost use Rattle.idl_tokens.specs.Terminals.{terminals};
ghost use Rattle.idl_tokens.specs.Checks.{heads};
ghost use Rattle.idl_tree.specs.Grammar.{rule, body as body_part, switch_part};
ghost use Rattle.idl_tree.specs.Pieces.{Written, word_pieces, within};
ghost use Rattle.idl_tree.specs.Trees.{kind_pieces, spec_pieces, attr_pieces, attrs_pieces, member_pieces, switch_pieces, arm_pieces};
ghost use Rattle.idl_parts.specs.Reads.{Gives};
ghost use Rattle.idl_parts.specs.Along.{enum_rest_at};
ghost use Rattle.idl_reader.specs.TypesAlong.{own_word_at, typed_at, plain_at, struct_rest_at, union_rest_at, arms_part, spec_at, attr_at, if_attrs_at, member_start, member_at, arm_at};

use idl_parts::{
    Stop, base, dtors, enum_body, is_mark, is_name, is_next, is_open, is_word, labels, mark, name,
    name_or_none, open, place, plain_attr, range, shut, size_attr, switch_is, word, word_among,
};
use idl_tokens::{Bracket, Mark, Token, Word, class};
use idl_tree::{ArmNode, Attr, AttrKind, Member, Spec, SpecKind, Switch};
use std::alloc::Global;

/// Reads a spec that is a name, a type of its own word, or a base type.
#[tactic(auto, using(idl_parts::proofs::Parts::writing), unfolding(crate::specs::TypesAlong::typed_at))]
fn typed(alloc: Global, tokens: &[Token]) -> Result<(SpecKind, &[Token]), Stop<'_>>
    ensures along { Gives (λ p. p.1.now) result (typed_at (terminals tokens.now)) }
    ensures written { IfOk result (λ p. Written (kind_pieces p.0) tokens.now p.1.now) }
    ensures shorter { IfOk result (λ p. length p.1.now < length tokens.now) }
{
    if is_name(tokens) {
        let (name, rest) = name(alloc, tokens)?;
        Ok((SpecKind::Named(name), rest))
    } else if is_next(tokens, &[class::HANDLE_T, class::ERROR_STATUS_T]) {
        own_word(tokens)
    } else {
        let (base, rest) = base(tokens)?;
        Ok((SpecKind::Base(base), rest))
    }
}

/// Reads `handle_t` or `error_status_t`.
#[tactic(auto, using(idl_parts::proofs::Parts::plain_attrs), unfolding(crate::specs::TypesAlong::own_word_at))]
fn own_word(tokens: &[Token]) -> Result<(SpecKind, &[Token]), Stop<'_>>
    ensures along { Gives (λ p. p.1.now) result (own_word_at (terminals tokens.now)) }
    ensures written { IfOk result (λ p. Written (kind_pieces p.0) tokens.now p.1.now) }
    ensures shorter { IfOk result (λ p. length p.1.now < length tokens.now) }
{
    let (word, rest) = word_among(tokens, &[Word::HandleT, Word::ErrorStatusT])?;
    match word {
        Word::HandleT => Ok((SpecKind::HandleT, rest)),
        Word::ErrorStatusT => Ok((SpecKind::ErrorStatus, rest)),
        _ => unreachable!(),
    }
}

/// Reads a spec that is no structure, union or enum.
#[tactic(auto, using(idl_parts::proofs::Parts::writing), unfolding(crate::specs::TypesAlong::plain_at))]
fn plain(alloc: Global, tokens: &[Token]) -> Result<(SpecKind, &[Token]), Stop<'_>>
    ensures along { Gives (λ p. p.1.now) result (plain_at (terminals tokens.now)) }
    ensures written { IfOk result (λ p. Written (kind_pieces p.0) tokens.now p.1.now) }
    ensures shorter { IfOk result (λ p. length p.1.now < length tokens.now) }
{
    if is_word(tokens, Word::Void) {
        let rest = word(tokens, Word::Void)?;
        Ok((SpecKind::Void, rest))
    } else {
        typed(alloc, tokens)
    }
}

/// Reads an enum behind its word.
#[tactic(auto, using(idl_parts::proofs::Parts::writing), unfolding(idl_parts::specs::Along::enum_rest_at))]
fn enum_rest(alloc: Global, tokens: &[Token]) -> Result<(SpecKind, &[Token]), Stop<'_>>
    ensures along { Gives (λ p. p.1.now) result (enum_rest_at (terminals tokens.now)) }
    ensures written { IfOk result (λ p. (before : List Token) → Written (word_pieces words.Enum) before tokens.now → Written (kind_pieces p.0) before p.1.now) }
    ensures shorter { IfOk result (λ p. length p.1.now < length tokens.now) }
{
    let (tag, rest) = name_or_none(alloc, tokens)?;
    let (names, rest) = enum_body(alloc, rest)?;
    Ok((SpecKind::Enum { tag, names }, rest))
}

/// Whether a member may begin here.
fn starts_member(tokens: &[Token]) -> bool
    ensures { result ≡ heads member_start (terminals tokens.now) }
{
    is_next(
        tokens,
        &[
            class::OPEN_SQUARE,
            class::STRUCT,
            class::UNION,
            class::ENUM,
            class::VOID,
            class::NAME,
            class::RANGE,
            class::HANDLE_T,
            class::ERROR_STATUS_T,
            class::BOOLEAN,
            class::BYTE,
            class::UNSIGNED,
            class::CHAR,
            class::SMALL,
            class::SHORT,
            class::LONG,
            class::HYPER,
        ],
    )
}

/// Reads a type spec.
///
/// # Errors
///
/// `Stop::At` where the tokens depart; `Stop::Memory` where memory runs out.
#[cycle(specs)]
#[tactic(auto, using(crate::proofs::TypesLoops::cycle), unfolding(crate::specs::TypesAlong::spec_at))]
pub fn spec(alloc: Global, tokens: &[Token]) -> Result<(Spec, &[Token]), Stop<'_>>
    ensures along { Gives (λ p. p.1.now) result (spec_at (terminals tokens.now)) }
    ensures written { IfOk result (λ p. Written (spec_pieces p.0) tokens.now p.1.now) }
    ensures shorter { IfOk result (λ p. length p.1.now < length tokens.now) }
{
    let at = place(tokens);
    if is_word(tokens, Word::Struct) {
        let rest = word(tokens, Word::Struct)?;
        let (what, rest) = struct_rest(alloc, rest)?;
        Ok((Spec { at, what }, rest))
    } else if is_word(tokens, Word::Union) {
        let rest = word(tokens, Word::Union)?;
        let (what, rest) = union_rest(alloc, rest)?;
        Ok((Spec { at, what }, rest))
    } else if is_word(tokens, Word::Enum) {
        let rest = word(tokens, Word::Enum)?;
        let (what, rest) = enum_rest(alloc, rest)?;
        Ok((Spec { at, what }, rest))
    } else {
        let (what, rest) = plain(alloc, tokens)?;
        Ok((Spec { at, what }, rest))
    }
}

/// Reads a structure behind its word.
#[cycle(specs)]
#[tactic(auto, using(crate::proofs::TypesLoops::cycle), unfolding(crate::specs::TypesAlong::struct_rest_at))]
fn struct_rest(alloc: Global, tokens: &[Token]) -> Result<(SpecKind, &[Token]), Stop<'_>>
    ensures along { Gives (λ p. p.1.now) result (struct_rest_at (terminals tokens.now)) }
    ensures written { IfOk result (λ p. (before : List Token) → Written (word_pieces words.Struct) before tokens.now → Written (kind_pieces p.0) before p.1.now) }
    ensures shorter { IfOk result (λ p. length p.1.now < length tokens.now) }
{
    if is_name(tokens) {
        let (name, rest) = name(alloc, tokens)?;
        if is_open(rest, Bracket::Curly) {
            let (members, rest) = body(alloc, rest)?;
            Ok((
                SpecKind::Struct {
                    tag: Some(name),
                    members: Some(members),
                },
                rest,
            ))
        } else {
            Ok((
                SpecKind::Struct {
                    tag: Some(name),
                    members: None,
                },
                rest,
            ))
        }
    } else {
        let (members, rest) = body(alloc, tokens)?;
        Ok((
            SpecKind::Struct {
                tag: None,
                members: Some(members),
            },
            rest,
        ))
    }
}

/// Reads the members of a structure, in their brackets.
#[cycle(specs)]
#[tactic(auto, using(crate::proofs::TypesLoops::members), unfolding(crate::specs::TypesAlong::body_at, crate::specs::TypesAlong::members_at))]
fn body(alloc: Global, tokens: &[Token]) -> Result<(Vec<Member>, &[Token]), Stop<'_>>
    ensures along { Gives (λ p. p.1.now) result (parse rule body_part (terminals tokens.now)) }
    ensures written { IfOk result (λ p. Written (within brackets.Curly (flat_map member_pieces p.0.items)) tokens.now p.1.now) }
    ensures shorter { IfOk result (λ p. length p.1.now < length tokens.now) }
{
    let rest = open(tokens, Bracket::Curly)?;
    let (first, rest) = member(alloc, rest)?;
    let mut list = Vec::new(alloc);
    list.push(first)?;
    let mut rest = rest;
    'more: while starts_member(rest) {
        let (next, after) = member(alloc, rest)?;
        list.push(next)?;
        rest = after;
    }
    let rest = shut(rest, Bracket::Curly)?;
    Ok((list, rest))
}

/// Reads the members that one spec declares.
#[cycle(specs)]
#[tactic(auto, using(crate::proofs::TypesLoops::cycle), unfolding(crate::specs::TypesAlong::member_at))]
fn member(alloc: Global, tokens: &[Token]) -> Result<(Member, &[Token]), Stop<'_>>
    ensures along { Gives (λ p. p.1.now) result (member_at (terminals tokens.now)) }
    ensures written { IfOk result (λ p. Written (member_pieces p.0) tokens.now p.1.now) }
    ensures shorter { IfOk result (λ p. length p.1.now < length tokens.now) }
{
    let (attrs, rest) = attrs(alloc, tokens)?;
    let (spec, rest) = spec(alloc, rest)?;
    let (dtors, rest) = dtors(alloc, rest)?;
    let rest = mark(rest, Mark::Semicolon)?;
    Ok((Member { attrs, spec, dtors }, rest))
}

/// Reads attributes in their brackets, if they stand there.
///
/// # Errors
///
/// `Stop::At` where the tokens depart; `Stop::Memory` where memory runs out.
#[cycle(specs)]
#[tactic(auto, using(crate::proofs::TypesLoops::attrs), unfolding(crate::specs::TypesAlong::attrs_at, crate::specs::TypesAlong::attr_list_at, crate::specs::TypesAlong::comma_attr_at))]
pub fn attrs(alloc: Global, tokens: &[Token]) -> Result<(Vec<Attr>, &[Token]), Stop<'_>>
    ensures along { Gives (λ p. p.1.now) result (if_attrs_at (terminals tokens.now)) }
    ensures written { IfOk result (λ p. Written (attrs_pieces p.0.items) tokens.now p.1.now) }
    ensures shorter { IfOk result (λ p. length p.1.now ≤ length tokens.now) }
{
    let mut list = Vec::new(alloc);
    if !is_open(tokens, Bracket::Square) {
        return Ok((list, tokens));
    }
    let rest = open(tokens, Bracket::Square)?;
    let (first, rest) = attr(alloc, rest)?;
    list.push(first)?;
    let mut rest = rest;
    'more: while is_mark(rest, Mark::Comma) {
        let next = mark(rest, Mark::Comma)?;
        let (next, after) = attr(alloc, next)?;
        list.push(next)?;
        rest = after;
    }
    let rest = shut(rest, Bracket::Square)?;
    Ok((list, rest))
}

/// Reads an attribute.
#[cycle(specs)]
#[tactic(auto, using(crate::proofs::TypesLoops::cycle), unfolding(crate::specs::TypesAlong::attr_at))]
fn attr(alloc: Global, tokens: &[Token]) -> Result<(Attr, &[Token]), Stop<'_>>
    ensures along { Gives (λ p. p.1.now) result (attr_at (terminals tokens.now)) }
    ensures written { IfOk result (λ p. Written (attr_pieces p.0) tokens.now p.1.now) }
    ensures shorter { IfOk result (λ p. length p.1.now < length tokens.now) }
{
    let at = place(tokens);
    if is_next(
        tokens,
        &[
            class::IN,
            class::OUT,
            class::REF,
            class::UNIQUE,
            class::PTR,
            class::STRING,
            class::IDEMPOTENT,
            class::MAYBE,
            class::CONTEXT_HANDLE,
            class::CONTEXT_HANDLE_SERIALIZE,
            class::CONTEXT_HANDLE_NOSERIALIZE,
        ],
    ) {
        let (what, rest) = plain_attr(tokens)?;
        Ok((Attr { at, what }, rest))
    } else if is_next(tokens, &[class::SIZE_IS, class::MAX_IS, class::LENGTH_IS]) {
        let (what, rest) = size_attr(alloc, tokens)?;
        Ok((Attr { at, what }, rest))
    } else if is_word(tokens, Word::SwitchIs) {
        let (what, rest) = switch_is(alloc, tokens)?;
        Ok((Attr { at, what }, rest))
    } else if is_word(tokens, Word::SwitchType) {
        let rest = word(tokens, Word::SwitchType)?;
        let rest = open(rest, Bracket::Round)?;
        let (spec, rest) = spec(alloc, rest)?;
        let rest = shut(rest, Bracket::Round)?;
        let spec = Box::new(alloc, spec)?;
        Ok((
            Attr {
                at,
                what: AttrKind::SwitchType(spec),
            },
            rest,
        ))
    } else {
        let (what, rest) = range(tokens)?;
        Ok((Attr { at, what }, rest))
    }
}

/// Reads a union behind its word.
#[cycle(specs)]
#[tactic(auto, using(crate::proofs::TypesLoops::cycle), unfolding(crate::specs::TypesAlong::union_rest_at, crate::specs::TypesAlong::union_body_at))]
fn union_rest(alloc: Global, tokens: &[Token]) -> Result<(SpecKind, &[Token]), Stop<'_>>
    ensures along { Gives (λ p. p.1.now) result (union_rest_at (terminals tokens.now)) }
    ensures written { IfOk result (λ p. (before : List Token) → Written (word_pieces words.Union) before tokens.now → Written (kind_pieces p.0) before p.1.now) }
    ensures shorter { IfOk result (λ p. length p.1.now < length tokens.now) }
{
    let (tag, rest) = name_or_none(alloc, tokens)?;
    if is_word(rest, Word::Switch) {
        let (switch, rest) = switch(alloc, rest)?;
        let (arms, rest) = arms(alloc, rest)?;
        Ok((
            SpecKind::Union {
                tag,
                switch: Some(switch),
                arms,
            },
            rest,
        ))
    } else {
        let (arms, rest) = arms(alloc, rest)?;
        Ok((
            SpecKind::Union {
                tag,
                switch: None,
                arms,
            },
            rest,
        ))
    }
}

/// Reads the switch of a union.
#[cycle(specs)]
#[tactic(auto, using(crate::proofs::TypesLoops::switches), unfolding(crate::specs::TypesAlong::switch_at, crate::specs::TypesAlong::switch_type_at))]
fn switch(alloc: Global, tokens: &[Token]) -> Result<(Switch, &[Token]), Stop<'_>>
    ensures along { Gives (λ p. p.1.now) result (parse rule switch_part (terminals tokens.now)) }
    ensures written { IfOk result (λ p. Written (switch_pieces p.0) tokens.now p.1.now) }
    ensures shorter { IfOk result (λ p. length p.1.now < length tokens.now) }
{
    let rest = word(tokens, Word::Switch)?;
    let rest = open(rest, Bracket::Round)?;
    let (spec, rest) = spec(alloc, rest)?;
    let (name, rest) = name(alloc, rest)?;
    let rest = shut(rest, Bracket::Round)?;
    let (body, rest) = name_or_none(alloc, rest)?;
    let spec = Box::new(alloc, spec)?;
    Ok((Switch { spec, name, body }, rest))
}

/// Reads the arms of a union, in their brackets.
#[cycle(specs)]
#[tactic(auto, using(crate::proofs::TypesLoops::arms), unfolding(crate::specs::TypesAlong::arms_at, crate::specs::TypesAlong::arm_list_at))]
fn arms(alloc: Global, tokens: &[Token]) -> Result<(Vec<ArmNode>, &[Token]), Stop<'_>>
    ensures along { Gives (λ p. p.1.now) result (parse rule arms_part (terminals tokens.now)) }
    ensures written { IfOk result (λ p. Written (within brackets.Curly (flat_map arm_pieces p.0.items)) tokens.now p.1.now) }
    ensures shorter { IfOk result (λ p. length p.1.now < length tokens.now) }
{
    let rest = open(tokens, Bracket::Curly)?;
    let (first, rest) = arm(alloc, rest)?;
    let mut list = Vec::new(alloc);
    list.push(first)?;
    let mut rest = rest;
    'more: while is_next(rest, &[class::CASE, class::DEFAULT]) {
        let (next, after) = arm(alloc, rest)?;
        list.push(next)?;
        rest = after;
    }
    let rest = shut(rest, Bracket::Curly)?;
    Ok((list, rest))
}

/// Reads an arm of a union.
#[cycle(specs)]
#[tactic(auto, using(crate::proofs::TypesLoops::cycle), unfolding(crate::specs::TypesAlong::arm_at))]
fn arm(alloc: Global, tokens: &[Token]) -> Result<(ArmNode, &[Token]), Stop<'_>>
    ensures along { Gives (λ p. p.1.now) result (arm_at (terminals tokens.now)) }
    ensures written { IfOk result (λ p. Written (arm_pieces p.0) tokens.now p.1.now) }
    ensures shorter { IfOk result (λ p. length p.1.now < length tokens.now) }
{
    let (labels, rest) = labels(alloc, tokens)?;
    if starts_member(rest) {
        let (member, rest) = member(alloc, rest)?;
        Ok((
            ArmNode {
                labels,
                member: Some(member),
            },
            rest,
        ))
    } else {
        let rest = mark(rest, Mark::Semicolon)?;
        Ok((
            ArmNode {
                labels,
                member: None,
            },
            rest,
        ))
    }
}
