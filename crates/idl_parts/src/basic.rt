//! Readers of numbers, pointer classes and base types.
ghost use Rattle.std.specs.Prelude.{◌<◌, List, IfOk, length};
ghost use Rattle.idl_tokens.specs.declared.kinds.Token.{Token};
ghost use Rattle.idl_tokens.specs.declared.words.Word.TheVariants as words;
ghost use Rattle.idl_tokens.specs.Terminals.{terminals};
ghost use Rattle.idl_tree.specs.Pieces.{Written, num_pieces, pk_pieces, base_pieces, int_size_pieces, if_word};
ghost use Rattle.idl_parts.specs.Reads.{Gives};
ghost use Rattle.idl_parts.specs.Along.{signed_at, pk_at, int_size_at, sizeable_at, base_at};

use crate::stop::Stop;
use crate::take::{is_mark, is_word, mark, number, place, word, word_among, word_or_none};
use idl_tokens::{Mark, Token, Word};
use idl_tree::{Base, Num, Pk};

/// Reads a number that may have a minus.
///
/// # Errors
///
/// `Stop::At` where the tokens depart.
#[tactic(auto, using(crate::proofs::Taking::signed_written), unfolding(crate::specs::Along::signed_at))]
pub fn signed(tokens: &[Token]) -> Result<(Num, &[Token]), Stop<'_>>
    ensures along { Gives (λ p. p.1.now) result (signed_at (terminals tokens.now)) }
    ensures written { IfOk result (λ p. Written (num_pieces p.0) tokens.now p.1.now) }
    ensures shorter { IfOk result (λ p. length p.1.now < length tokens.now) }
{
    if is_mark(tokens, Mark::Minus) {
        let at = place(tokens);
        let rest = mark(tokens, Mark::Minus)?;
        let (plain, rest) = number(rest, u64::MAX)?;
        Ok((
            Num {
                at,
                minus: true,
                value: plain.value,
            },
            rest,
        ))
    } else {
        number(tokens, u64::MAX)
    }
}

/// Reads a pointer class.
///
/// # Errors
///
/// `Stop::At` where the tokens depart.
#[tactic(auto, using(crate::proofs::Parts::pk_told), unfolding(crate::specs::Along::pk_at, idl_tree::specs::Pieces::pk_pieces, idl_tree::specs::Pieces::pk_word))]
pub fn pk(tokens: &[Token]) -> Result<(Pk, &[Token]), Stop<'_>>
    ensures along { Gives (λ p. p.1.now) result (pk_at (terminals tokens.now)) }
    ensures written { IfOk result (λ p. Written (pk_pieces p.0) tokens.now p.1.now) }
    ensures shorter { IfOk result (λ p. length p.1.now < length tokens.now) }
{
    let (word, rest) = word_among(tokens, &[Word::Ref, Word::Unique, Word::Ptr])?;
    match word {
        Word::Ref => Ok((Pk::Ref, rest)),
        Word::Unique => Ok((Pk::Unique, rest)),
        Word::Ptr => Ok((Pk::Ptr, rest)),
        _ => unreachable!(),
    }
}

/// Reads the word of an integer's size, and gives its number of octets.
#[tactic(auto, using(crate::proofs::Parts::size_told), unfolding(crate::specs::Along::int_size_at, idl_tree::specs::Pieces::int_size_pieces))]
fn int_size(tokens: &[Token]) -> Result<(u8, &[Token]), Stop<'_>>
    ensures along { Gives (λ p. p.1.now) result (int_size_at (terminals tokens.now)) }
    ensures written { IfOk result (λ p. Written (int_size_pieces p.0) tokens.now p.1.now) }
    ensures shorter { IfOk result (λ p. length p.1.now < length tokens.now) }
{
    let (word, rest) = word_among(tokens, &[Word::Small, Word::Short, Word::Long, Word::Hyper])?;
    match word {
        Word::Small => Ok((1, rest)),
        Word::Short => Ok((2, rest)),
        Word::Long => Ok((4, rest)),
        Word::Hyper => Ok((8, rest)),
        _ => unreachable!(),
    }
}

/// Reads what may stand behind `unsigned`.
#[tactic(auto, using(crate::proofs::Parts::writing), unfolding(crate::specs::Along::sizeable_at, idl_tree::specs::Pieces::base_pieces))]
fn sizeable(tokens: &[Token], unsigned: bool) -> Result<(Base, &[Token]), Stop<'_>>
    ensures along { Gives (λ p. p.1.now) result (sizeable_at (terminals tokens.now)) }
    ensures written { IfOk result (λ p. (before : List Token) → Written (if_word unsigned words.Unsigned) before tokens.now → Written (base_pieces p.0) before p.1.now) }
    ensures shorter { IfOk result (λ p. length p.1.now < length tokens.now) }
{
    if is_word(tokens, Word::Char) {
        let rest = word(tokens, Word::Char)?;
        Ok((Base::Char { unsigned }, rest))
    } else {
        let (size, rest) = int_size(tokens)?;
        let (int_word, rest) = word_or_none(rest, Word::Int)?;
        Ok((
            Base::Int {
                unsigned,
                size,
                int_word,
            },
            rest,
        ))
    }
}

/// Reads a base type.
///
/// # Errors
///
/// `Stop::At` where the tokens depart.
#[tactic(auto, using(crate::proofs::Parts::writing), unfolding(crate::specs::Along::base_at, idl_tree::specs::Pieces::base_pieces))]
pub fn base(tokens: &[Token]) -> Result<(Base, &[Token]), Stop<'_>>
    ensures along { Gives (λ p. p.1.now) result (base_at (terminals tokens.now)) }
    ensures written { IfOk result (λ p. Written (base_pieces p.0) tokens.now p.1.now) }
    ensures shorter { IfOk result (λ p. length p.1.now < length tokens.now) }
{
    if is_word(tokens, Word::Boolean) {
        let rest = word(tokens, Word::Boolean)?;
        Ok((Base::Boolean, rest))
    } else if is_word(tokens, Word::Byte) {
        let rest = word(tokens, Word::Byte)?;
        Ok((Base::Byte, rest))
    } else {
        let (unsigned, rest) = word_or_none(tokens, Word::Unsigned)?;
        let (base, rest) = sizeable(rest, unsigned)?;
        Ok((base, rest))
    }
}
