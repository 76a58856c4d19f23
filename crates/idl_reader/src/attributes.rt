//! Readers of the attributes of an interface.
ghost use Rattle.std.specs.Prelude.{◌≡◌, ℕ, ◌^◌, ◌<◌, ◌≤◌, ◌++◌, List, [], ◌∷◌, IfOk, length};
ghost use Rattle.idl_tokens.specs.declared.kinds.Token.{Token};
ghost use Rattle.idl_tokens.specs.declared.marks.Mark.TheVariants as marks;
ghost use Rattle.idl_tokens.specs.declared.marks.Bracket.TheVariants as brackets;
ghost use Rattle.idl_tokens.specs.Terminals.{terminals, of_mark};
ghost use Rattle.idl_tree.specs.Pieces.{Written, mark_pieces, num_pieces, text_pieces, commas, within};
ghost use Rattle.idl_tree.specs.Files.{minor_pieces, file_attr_kind_pieces, file_attr_pieces};
ghost use Rattle.idl_parts.specs.Reads.{Gives};
ghost use Rattle.idl_parts.specs.Along.{if_next};
ghost use Rattle.idl_reader.specs.Along.{minor_at, version_at, comma_text_at, texts_at, uuid_attr_at, version_attr_at, default_attr_at, endpoint_attr_at, file_attr_at, comma_file_attr_at, file_attrs_at};

use idl_parts::{Stop, is_mark, is_word, mark, number, open, pk, place, shut, text, uuid, word};
use idl_tokens::{Bracket, Mark, Token, Word};
use idl_tree::{FileAttr, FileAttrKind, Num};
use rpc_base::Octets;
use std::alloc::Global;

/// Reads a dot and the minor number of a version, if they stand there.
#[tactic(auto, using(idl_tree::proofs::Writing::writing), unfolding(crate::specs::Along::minor_at, idl_tree::specs::Files::minor_pieces))]
fn minor(tokens: &[Token]) -> Result<(Option<Num>, &[Token]), Stop<'_>>
    ensures along { Gives (λ p. p.1.now) result (if_next (of_mark marks.Dot) minor_at (terminals tokens.now)) }
    ensures written { IfOk result (λ p. Written (minor_pieces p.0) tokens.now p.1.now) }
    ensures shorter { IfOk result (λ p. length p.1.now ≤ length tokens.now) }
{
    if is_mark(tokens, Mark::Dot) {
        let rest = mark(tokens, Mark::Dot)?;
        let (minor, rest) = number(rest, 65535)?;
        Ok((Some(minor), rest))
    } else {
        Ok((None, tokens))
    }
}

/// Reads a version.
#[tactic(auto, using(idl_tree::proofs::Writing::writing), unfolding(crate::specs::Along::version_at))]
fn version(tokens: &[Token]) -> Result<(Num, Option<Num>, &[Token]), Stop<'_>>
    ensures along { Gives (λ p. p.2.now) result (version_at (terminals tokens.now)) }
    ensures written { IfOk result (λ p. Written (num_pieces p.0 ++ minor_pieces p.1) tokens.now p.2.now) }
    ensures shorter { IfOk result (λ p. length p.2.now < length tokens.now) }
{
    let (major, rest) = number(tokens, 65535)?;
    let (minor, rest) = minor(rest)?;
    Ok((major, minor, rest))
}

/// Reads a comma and a string.
#[tactic(auto, using(idl_tree::proofs::Writing::writing), unfolding(crate::specs::Along::comma_text_at))]
fn comma_text(alloc: Global, tokens: &[Token]) -> Result<(Octets, &[Token]), Stop<'_>>
    ensures along { Gives (λ p. p.1.now) result (comma_text_at (terminals tokens.now)) }
    ensures written { IfOk result (λ p. Written (mark_pieces marks.Comma ++ text_pieces p.0) tokens.now p.1.now) }
    ensures shorter { IfOk result (λ p. length p.1.now < length tokens.now) }
{
    let rest = mark(tokens, Mark::Comma)?;
    let (text, rest) = text(alloc, rest)?;
    Ok((text, rest))
}

/// Reads strings with commas between them.
#[tactic(auto, using(crate::proofs::Loops::texts), unfolding(crate::specs::Along::texts_at))]
fn texts(alloc: Global, tokens: &[Token]) -> Result<(Vec<Octets>, &[Token]), Stop<'_>>
    ensures along { Gives (λ p. p.1.now) result (texts_at (terminals tokens.now)) }
    ensures written { IfOk result (λ p. Written (commas text_pieces p.0.items) tokens.now p.1.now) }
    ensures shorter { IfOk result (λ p. length p.1.now < length tokens.now) }
{
    let (first, rest) = text(alloc, tokens)?;
    let mut list = Vec::new(alloc);
    list.push(first)?;
    let mut rest = rest;
    'more: while is_mark(rest, Mark::Comma) {
        let (next, after) = comma_text(alloc, rest)?;
        list.push(next)?;
        rest = after;
    }
    Ok((list, rest))
}

/// Reads the attribute `uuid`.
#[tactic(auto, using(idl_tree::proofs::Writing::writing), unfolding(crate::specs::Along::uuid_attr_at, idl_tree::specs::Files::file_attr_kind_pieces))]
fn uuid_attr(tokens: &[Token]) -> Result<(FileAttrKind, &[Token]), Stop<'_>>
    ensures along { Gives (λ p. p.1.now) result (uuid_attr_at (terminals tokens.now)) }
    ensures written { IfOk result (λ p. Written (file_attr_kind_pieces p.0) tokens.now p.1.now) }
    ensures shorter { IfOk result (λ p. length p.1.now < length tokens.now) }
{
    let rest = word(tokens, Word::Uuid)?;
    let rest = open(rest, Bracket::Round)?;
    match uuid(rest) {
        Err(stop) => Err(stop),
        Ok((id, rest)) => {
            let rest = shut(rest, Bracket::Round)?;
            Ok((FileAttrKind::Uuid(id), rest))
        }
    }
}

/// Reads the attribute `version`.
#[tactic(auto, using(idl_tree::proofs::Writing::writing), unfolding(crate::specs::Along::version_attr_at, idl_tree::specs::Files::file_attr_kind_pieces))]
fn version_attr(tokens: &[Token]) -> Result<(FileAttrKind, &[Token]), Stop<'_>>
    ensures along { Gives (λ p. p.1.now) result (version_attr_at (terminals tokens.now)) }
    ensures written { IfOk result (λ p. Written (file_attr_kind_pieces p.0) tokens.now p.1.now) }
    ensures shorter { IfOk result (λ p. length p.1.now < length tokens.now) }
{
    let rest = word(tokens, Word::Version)?;
    let rest = open(rest, Bracket::Round)?;
    let (major, minor, rest) = version(rest)?;
    let rest = shut(rest, Bracket::Round)?;
    Ok((FileAttrKind::Version(major, minor), rest))
}

/// Reads the attribute `pointer_default`.
#[tactic(auto, using(idl_tree::proofs::Writing::writing), unfolding(crate::specs::Along::default_attr_at, idl_tree::specs::Files::file_attr_kind_pieces))]
fn default_attr(tokens: &[Token]) -> Result<(FileAttrKind, &[Token]), Stop<'_>>
    ensures along { Gives (λ p. p.1.now) result (default_attr_at (terminals tokens.now)) }
    ensures written { IfOk result (λ p. Written (file_attr_kind_pieces p.0) tokens.now p.1.now) }
    ensures shorter { IfOk result (λ p. length p.1.now < length tokens.now) }
{
    let rest = word(tokens, Word::PointerDefault)?;
    let rest = open(rest, Bracket::Round)?;
    let (class, rest) = pk(rest)?;
    let rest = shut(rest, Bracket::Round)?;
    Ok((FileAttrKind::PointerDefault(class), rest))
}

/// Reads the attribute `endpoint`.
#[tactic(auto, using(idl_tree::proofs::Writing::writing), unfolding(crate::specs::Along::endpoint_attr_at, idl_tree::specs::Files::file_attr_kind_pieces))]
fn endpoint_attr(alloc: Global, tokens: &[Token]) -> Result<(FileAttrKind, &[Token]), Stop<'_>>
    ensures along { Gives (λ p. p.1.now) result (endpoint_attr_at (terminals tokens.now)) }
    ensures written { IfOk result (λ p. Written (file_attr_kind_pieces p.0) tokens.now p.1.now) }
    ensures shorter { IfOk result (λ p. length p.1.now < length tokens.now) }
{
    let rest = word(tokens, Word::Endpoint)?;
    let rest = open(rest, Bracket::Round)?;
    let (texts, rest) = texts(alloc, rest)?;
    let rest = shut(rest, Bracket::Round)?;
    Ok((FileAttrKind::Endpoint(texts), rest))
}

/// Reads an attribute of the interface up to what it says.
#[tactic(auto, unfolding(crate::specs::Along::file_attr_at))]
fn file_attr_kind(alloc: Global, tokens: &[Token]) -> Result<(FileAttrKind, &[Token]), Stop<'_>>
    ensures along { Gives (λ p. p.1.now) result (file_attr_at (terminals tokens.now)) }
    ensures written { IfOk result (λ p. Written (file_attr_kind_pieces p.0) tokens.now p.1.now) }
    ensures shorter { IfOk result (λ p. length p.1.now < length tokens.now) }
{
    if is_word(tokens, Word::Uuid) {
        uuid_attr(tokens)
    } else if is_word(tokens, Word::Version) {
        version_attr(tokens)
    } else if is_word(tokens, Word::PointerDefault) {
        default_attr(tokens)
    } else {
        endpoint_attr(alloc, tokens)
    }
}

/// Reads an attribute of the interface.
#[tactic(auto, using(idl_tree::proofs::Writing::writing), unfolding(idl_tree::specs::Files::file_attr_pieces))]
fn file_attr(alloc: Global, tokens: &[Token]) -> Result<(FileAttr, &[Token]), Stop<'_>>
    ensures along { Gives (λ p. p.1.now) result (file_attr_at (terminals tokens.now)) }
    ensures written { IfOk result (λ p. Written (file_attr_pieces p.0) tokens.now p.1.now) }
    ensures shorter { IfOk result (λ p. length p.1.now < length tokens.now) }
{
    let at = place(tokens);
    let (what, rest) = file_attr_kind(alloc, tokens)?;
    Ok((FileAttr { at, what }, rest))
}

/// Reads a comma and an attribute of the interface.
#[tactic(auto, using(idl_tree::proofs::Writing::writing), unfolding(crate::specs::Along::comma_file_attr_at))]
fn comma_file_attr(alloc: Global, tokens: &[Token]) -> Result<(FileAttr, &[Token]), Stop<'_>>
    ensures along { Gives (λ p. p.1.now) result (comma_file_attr_at (terminals tokens.now)) }
    ensures written { IfOk result (λ p. Written (mark_pieces marks.Comma ++ file_attr_pieces p.0) tokens.now p.1.now) }
    ensures shorter { IfOk result (λ p. length p.1.now < length tokens.now) }
{
    let rest = mark(tokens, Mark::Comma)?;
    let (attr, rest) = file_attr(alloc, rest)?;
    Ok((attr, rest))
}

/// Reads the attributes of the interface, in their brackets.
///
/// # Errors
///
/// `Stop::At` where the tokens depart; `Stop::Memory` where memory runs out.
#[tactic(auto, using(crate::proofs::Loops::file_attrs), unfolding(crate::specs::Along::file_attrs_at, crate::specs::Along::file_attr_list_at))]
pub fn file_attrs(alloc: Global, tokens: &[Token]) -> Result<(Vec<FileAttr>, &[Token]), Stop<'_>>
    ensures along { Gives (λ p. p.1.now) result (file_attrs_at (terminals tokens.now)) }
    ensures written { IfOk result (λ p. Written (within brackets.Square (commas file_attr_pieces p.0.items)) tokens.now p.1.now) }
    ensures shorter { IfOk result (λ p. length p.1.now < length tokens.now) }
{
    let rest = open(tokens, Bracket::Square)?;
    let (first, rest) = file_attr(alloc, rest)?;
    let mut list = Vec::new(alloc);
    list.push(first)?;
    let mut rest = rest;
    'more: while is_mark(rest, Mark::Comma) {
        let (next, after) = comma_file_attr(alloc, rest)?;
        list.push(next)?;
        rest = after;
    }
    let rest = shut(rest, Bracket::Square)?;
    Ok((list, rest))
}
