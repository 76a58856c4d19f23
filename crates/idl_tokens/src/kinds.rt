//! Tokens.
ghost use Rattle.std.specs.Prelude.{◌≡◌, nat_lt};
ghost use Rattle.idl_tokens.specs.Terminals.{terminal, of_name};

use crate::{Bracket, Mark, Word, class};
use rpc_base::Octets;
use uuid::Uuid;

/// What a token is.
#[derive(Debug, Drop)]
pub enum Kind {
    Word(Word),
    /// A name that is no reserved word.
    Name(Octets),
    /// A number, if it fits 64 bits.
    Number(Option<u64>),
    /// A string, without its quotes.
    Text(Octets),
    Uuid(Uuid),
    Mark(Mark),
    /// An opening bracket and its nesting level, from 1.
    Open(Bracket, usize),
    Shut(Bracket),
    /// The end of the text.
    End,
    /// An octet that begins no token, or an unfinished token or comment: nothing is read behind it.
    Bad,
}

/// A token, and the index of the octet where it begins.
#[derive(Debug, Drop)]
pub struct Token {
    pub at: usize,
    pub kind: Kind,
}

/// The name that is a word where an attribute begins, and free as a name elsewhere.
pub const RANGE_WORD: &[u8] = b"range";

// The class of a name's tokens.
fn class_of_name(name: &[u8]) -> u8
    ensures { result ≡ of_name name.now }
{
    if name == RANGE_WORD {
        class::RANGE
    } else {
        class::NAME
    }
}

impl Kind {
    /// The token's class, which the grammar tells tokens by.
    pub fn class(&self) -> u8
        ensures { result ≡ (terminal self.now).class }
    {
        match self {
            Kind::Word(word) => word.class(),
            Kind::Name(name) => class_of_name(name.as_slice()),
            Kind::Number(_) => class::NUMBER,
            Kind::Text(_) => class::TEXT,
            Kind::Uuid(_) => class::UUID,
            Kind::Mark(mark) => mark.class(),
            Kind::Open(bracket, _) => bracket.opening(),
            Kind::Shut(bracket) => bracket.closing(),
            Kind::End => class::END,
            Kind::Bad => class::BAD,
        }
    }

    /// Whether a number's value, or an opening bracket's level, is above `most`.
    pub fn is_over(&self, most: u64) -> bool
        ensures { result ≡ nat_lt most (terminal self.now).size }
    {
        match self {
            Kind::Number(Some(value)) => most < *value,
            Kind::Number(None) => true,
            Kind::Open(_, level) => most < *level as u64,
            _ => false,
        }
    }
}
