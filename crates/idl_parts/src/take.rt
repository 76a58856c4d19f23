//! Readers of single tokens.
ghost use Rattle.std.specs.Prelude.{◌≡◌, ◌+◌, ◌<◌, ◌≤◌, [], ◌∷◌, IfOk, length, map, true, false};
ghost use Rattle.idl_tokens.specs.Machine.{token};
ghost use Rattle.idl_tokens.specs.Ebnf.{has};
ghost use Rattle.idl_tokens.specs.Checks.{heads};
ghost use Rattle.idl_tokens.specs.Terminals.{terminals, of_word, of_mark, opening, closing, number_class};
ghost use Rattle.idl_tree.specs.Pieces.{Written, BeginsAt, word_pieces, mark_pieces, open_pieces, shut_pieces, end_pieces, text_pieces, uuid_pieces, ident_pieces, range_pieces, num_pieces, if_word, if_mark, if_ident};
ghost use Rattle.idl_parts.specs.Reads.{Gives, IsTaken};
ghost use Rattle.idl_parts.specs.Along.{if_next, if_among, word_at, mark_at, open_at, shut_at, text_at, uuid_at, end_at, name_at, range_at};
ghost use Rattle.idl_tree.specs.Combinators.{name_classes};

use crate::stop::Stop;
use idl_tokens::{Bracket, Kind, Mark, Token, Word, class};
use idl_tree::{Ident, Num};
use rpc_base::Octets;
use std::alloc::Global;
use uuid::Uuid;

/// The deepest level to which brackets nest.
const DEEPEST: u64 = 64;

/// Takes a token of a class, of at most this size.
#[tactic(auto, using(crate::proofs::Taking::taking))]
fn take(tokens: &[Token], class: u8, most: u64) -> Result<(&Token, &[Token]), Stop<'_>>
    ensures along { Gives (λ p. p.1.now) result (token (class ∷ []) (most + 1) (terminals tokens.now)) }
    ensures taken { IfOk result (λ p. IsTaken class (most + 1) p.0.now tokens.now p.1.now) }
{
    match tokens.split_first() {
        None => Err(Stop::At(false, tokens)),
        Some((first, rest)) => {
            if first.kind.class() != class {
                Err(Stop::At(false, tokens))
            } else if first.kind.is_over(most) {
                Err(Stop::At(true, tokens))
            } else {
                Ok((first, rest))
            }
        }
    }
}

/// Whether the next token is of one of these classes, which `idl_tokens` numbers.
pub fn is_next(tokens: &[Token], classes: &[u8]) -> bool
    ensures { result ≡ heads classes.now (terminals tokens.now) }
{
    match tokens.split_first() {
        None => false,
        Some((first, _)) => has_class(classes, first.kind.class()),
    }
}

fn has_class(classes: &[u8], class: u8) -> bool
    ensures { result ≡ has class classes.now }
{
    classes.iter().any(|c| class == *c)
}

/// Where the tokens begin.
pub fn place(tokens: &[Token]) -> usize
    ensures { BeginsAt result tokens.now }
{
    match tokens.first() {
        Some(first) => first.at,
        None => 0,
    }
}

/// Whether the next token is this word.
pub fn is_word(tokens: &[Token], word: Word) -> bool
    ensures { result ≡ heads (of_word word ∷ []) (terminals tokens.now) }
{
    is_next(tokens, &[word.class()])
}

/// Whether the next token is this mark.
pub fn is_mark(tokens: &[Token], mark: Mark) -> bool
    ensures { result ≡ heads (of_mark mark ∷ []) (terminals tokens.now) }
{
    is_next(tokens, &[mark.class()])
}

/// Whether the next token opens such a bracket.
pub fn is_open(tokens: &[Token], bracket: Bracket) -> bool
    ensures { result ≡ heads (opening bracket ∷ []) (terminals tokens.now) }
{
    is_next(tokens, &[bracket.opening()])
}

/// Whether the next token is a name.
pub fn is_name(tokens: &[Token]) -> bool
    ensures { result ≡ heads name_classes (terminals tokens.now) }
{
    is_next(tokens, &[class::NAME, class::RANGE])
}

/// Whether the next token is a number.
pub fn is_number(tokens: &[Token]) -> bool
    ensures { result ≡ heads (number_class ∷ []) (terminals tokens.now) }
{
    is_next(tokens, &[class::NUMBER])
}

/// Reads a word.
///
/// # Errors
///
/// `Stop::At` these tokens where the word isn't next.
#[tactic(auto, using(crate::proofs::Taking::shorter))]
pub fn word(tokens: &[Token], word: Word) -> Result<&[Token], Stop<'_>>
    ensures along { Gives (λ p. p.now) result (word_at word (terminals tokens.now)) }
    ensures written { IfOk result (λ p. Written (word_pieces word) tokens.now p.now) }
    ensures shorter { IfOk result (λ p. length p.now < length tokens.now) }
{
    let (_, rest) = take(tokens, word.class(), 0)?;
    Ok(rest)
}

/// Reads a mark.
///
/// # Errors
///
/// `Stop::At` these tokens where the mark isn't next.
#[tactic(auto, using(crate::proofs::Taking::shorter))]
pub fn mark(tokens: &[Token], mark: Mark) -> Result<&[Token], Stop<'_>>
    ensures along { Gives (λ p. p.now) result (mark_at mark (terminals tokens.now)) }
    ensures written { IfOk result (λ p. Written (mark_pieces mark) tokens.now p.now) }
    ensures shorter { IfOk result (λ p. length p.now < length tokens.now) }
{
    let (_, rest) = take(tokens, mark.class(), 0)?;
    Ok(rest)
}

/// Opens a bracket, to level 64.
///
/// # Errors
///
/// `Stop::At` these tokens where the bracket isn't next, or it opens level 65, and the flag then says that its size
/// alone is at fault.
#[tactic(auto, using(crate::proofs::Taking::shorter))]
pub fn open(tokens: &[Token], bracket: Bracket) -> Result<&[Token], Stop<'_>>
    ensures along { Gives (λ p. p.now) result (open_at bracket (terminals tokens.now)) }
    ensures written { IfOk result (λ p. Written (open_pieces bracket) tokens.now p.now) }
    ensures shorter { IfOk result (λ p. length p.now < length tokens.now) }
{
    let (_, rest) = take(tokens, bracket.opening(), DEEPEST)?;
    Ok(rest)
}

/// Shuts a bracket.
///
/// # Errors
///
/// `Stop::At` these tokens where the bracket isn't next.
#[tactic(auto, using(crate::proofs::Taking::shorter))]
pub fn shut(tokens: &[Token], bracket: Bracket) -> Result<&[Token], Stop<'_>>
    ensures along { Gives (λ p. p.now) result (shut_at bracket (terminals tokens.now)) }
    ensures written { IfOk result (λ p. Written (shut_pieces bracket) tokens.now p.now) }
    ensures shorter { IfOk result (λ p. length p.now < length tokens.now) }
{
    let (_, rest) = take(tokens, bracket.closing(), DEEPEST)?;
    Ok(rest)
}

/// Reads the end of a text.
///
/// # Errors
///
/// `Stop::At` these tokens where the text's end isn't next.
pub fn end(tokens: &[Token]) -> Result<&[Token], Stop<'_>>
    ensures along { Gives (λ p. p.now) result (end_at (terminals tokens.now)) }
    ensures written { IfOk result (λ p. Written end_pieces tokens.now p.now) }
{
    let (_, rest) = take(tokens, class::END, 0)?;
    Ok(rest)
}

/// Reads a name.
///
/// # Errors
///
/// `Stop::At` these tokens where no name is next; `Stop::Memory` where there is no memory for its text.
#[tactic(auto, using(crate::proofs::Taking::names))]
pub fn name(alloc: Global, tokens: &[Token]) -> Result<(Ident, &[Token]), Stop<'_>>
    ensures along { Gives (λ p. p.1.now) result (name_at (terminals tokens.now)) }
    ensures written { IfOk result (λ p. Written (ident_pieces p.0) tokens.now p.1.now) }
    ensures shorter { IfOk result (λ p. length p.1.now < length tokens.now) }
{
    match tokens.split_first() {
        None => Err(Stop::At(false, tokens)),
        Some((first, rest)) => {
            if !has_class(&[class::NAME, class::RANGE], first.kind.class()) {
                return Err(Stop::At(false, tokens));
            }
            match &first.kind {
                Kind::Name(text) => {
                    let text = text.copy(alloc)?;
                    Ok((Ident { at: first.at, text }, rest))
                }
                _ => unreachable!(),
            }
        }
    }
}

/// Reads the word `range`, which is a name elsewhere.
///
/// # Errors
///
/// `Stop::At` these tokens where the word isn't next.
#[tactic(auto, using(crate::proofs::Taking::shorter))]
pub fn range_word(tokens: &[Token]) -> Result<&[Token], Stop<'_>>
    ensures along { Gives (λ p. p.now) result (range_at (terminals tokens.now)) }
    ensures written { IfOk result (λ p. Written range_pieces tokens.now p.now) }
    ensures shorter { IfOk result (λ p. length p.now < length tokens.now) }
{
    let (_, rest) = take(tokens, class::RANGE, 0)?;
    Ok(rest)
}

/// Reads a number of at most this.
///
/// # Errors
///
/// `Stop::At` these tokens where no number is next, or it is larger, and the flag then says that its size alone is
/// at fault.
#[tactic(auto, using(crate::proofs::Taking::numbers))]
pub fn number(tokens: &[Token], most: u64) -> Result<(Num, &[Token]), Stop<'_>>
    ensures along { Gives (λ p. p.1.now) result (token (number_class ∷ []) (most + 1) (terminals tokens.now)) }
    ensures written { IfOk result (λ p. Written (num_pieces p.0) tokens.now p.1.now) }
    ensures plain { IfOk result (λ p. p.0.minus ≡ false) }
    ensures shorter { IfOk result (λ p. length p.1.now < length tokens.now) }
{
    let (first, rest) = take(tokens, class::NUMBER, most)?;
    match first.kind {
        Kind::Number(Some(value)) => Ok((
            Num {
                at: first.at,
                minus: false,
                value,
            },
            rest,
        )),
        _ => unreachable!(),
    }
}

/// Reads a string.
///
/// # Errors
///
/// `Stop::At` these tokens where no string is next; `Stop::Memory` where there is no memory for it.
#[tactic(auto, using(crate::proofs::Taking::texts))]
pub fn text(alloc: Global, tokens: &[Token]) -> Result<(Octets, &[Token]), Stop<'_>>
    ensures along { Gives (λ p. p.1.now) result (text_at (terminals tokens.now)) }
    ensures written { IfOk result (λ p. Written (text_pieces p.0) tokens.now p.1.now) }
    ensures shorter { IfOk result (λ p. length p.1.now < length tokens.now) }
{
    let (first, rest) = take(tokens, class::TEXT, 0)?;
    match &first.kind {
        Kind::Text(text) => Ok((text.copy(alloc)?, rest)),
        _ => unreachable!(),
    }
}

/// Reads a UUID.
///
/// # Errors
///
/// `Stop::At` these tokens where no UUID is next.
#[tactic(auto, using(crate::proofs::Taking::uuids))]
pub fn uuid(tokens: &[Token]) -> Result<(Uuid, &[Token]), Stop<'_>>
    ensures along { Gives (λ p. p.1.now) result (uuid_at (terminals tokens.now)) }
    ensures written { IfOk result (λ p. Written (uuid_pieces p.0) tokens.now p.1.now) }
    ensures shorter { IfOk result (λ p. length p.1.now < length tokens.now) }
{
    let (first, rest) = take(tokens, class::UUID, 0)?;
    match first.kind {
        Kind::Uuid(id) => Ok((id, rest)),
        _ => unreachable!(),
    }
}

/// Whether a class is that of one of these words.
fn has_word(words: &[Word], class: u8) -> bool
    ensures { result ≡ has class (map of_word words.now) }
{
    words.iter().map(|word| word.class()).any(|c| class == c)
}

/// Reads one of these words.
///
/// # Errors
///
/// `Stop::At` these tokens where none of the words is next.
#[tactic(auto, using(crate::proofs::Taking::among))]
pub fn word_among<'a>(tokens: &'a [Token], words: &[Word]) -> Result<(Word, &'a [Token]), Stop<'a>>
    ensures along { Gives (λ p. p.1.now) result (token (map of_word words.now) 1 (terminals tokens.now)) }
    ensures written { IfOk result (λ p. Written (word_pieces p.0) tokens.now p.1.now) }
    ensures among { IfOk result (λ p. has (of_word p.0) (map of_word words.now) ≡ true) }
    ensures shorter { IfOk result (λ p. length p.1.now < length tokens.now) }
{
    match tokens.split_first() {
        None => Err(Stop::At(false, tokens)),
        Some((first, rest)) => {
            if has_word(words, first.kind.class()) {
                match first.kind {
                    Kind::Word(word) => Ok((word, rest)),
                    _ => unreachable!(),
                }
            } else {
                Err(Stop::At(false, tokens))
            }
        }
    }
}

/// Reads a word that may be left out.
///
/// # Errors
///
/// None comes: what isn't the word is left.
#[tactic(auto, using(idl_tree::proofs::Writing::writing), unfolding(idl_tree::specs::Pieces::if_word))]
pub fn word_or_none(tokens: &[Token], word: Word) -> Result<(bool, &[Token]), Stop<'_>>
    ensures along { Gives (λ p. p.1.now) result (if_next (of_word word) (word_at word) (terminals tokens.now)) }
    ensures written { IfOk result (λ p. Written (if_word p.0 word) tokens.now p.1.now) }
    ensures shorter { IfOk result (λ p. length p.1.now ≤ length tokens.now) }
{
    if is_word(tokens, word) {
        Ok((true, self::word(tokens, word)?))
    } else {
        Ok((false, tokens))
    }
}

/// Reads a mark that may be left out.
///
/// # Errors
///
/// None comes: what isn't the mark is left.
#[tactic(auto, using(idl_tree::proofs::Writing::writing), unfolding(idl_tree::specs::Pieces::if_mark))]
pub fn mark_or_none(tokens: &[Token], mark: Mark) -> Result<(bool, &[Token]), Stop<'_>>
    ensures along { Gives (λ p. p.1.now) result (if_next (of_mark mark) (mark_at mark) (terminals tokens.now)) }
    ensures written { IfOk result (λ p. Written (if_mark p.0 mark) tokens.now p.1.now) }
    ensures shorter { IfOk result (λ p. length p.1.now ≤ length tokens.now) }
{
    if is_mark(tokens, mark) {
        Ok((true, self::mark(tokens, mark)?))
    } else {
        Ok((false, tokens))
    }
}

/// Reads a name that may be left out.
///
/// # Errors
///
/// `Stop::Memory` where there is no memory for the name's text.
#[tactic(auto, using(idl_tree::proofs::Writing::writing), unfolding(idl_tree::specs::Pieces::if_ident))]
pub fn name_or_none(alloc: Global, tokens: &[Token]) -> Result<(Option<Ident>, &[Token]), Stop<'_>>
    ensures along { Gives (λ p. p.1.now) result (if_among name_classes name_at (terminals tokens.now)) }
    ensures written { IfOk result (λ p. Written (if_ident p.0) tokens.now p.1.now) }
    ensures shorter { IfOk result (λ p. length p.1.now ≤ length tokens.now) }
{
    if is_name(tokens) {
        let (name, rest) = name(alloc, tokens)?;
        Ok((Some(name), rest))
    } else {
        Ok((None, tokens))
    }
}
