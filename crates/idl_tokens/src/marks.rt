//! Marks and brackets.
ghost use Rattle.std.specs.Prelude.{◌≡◌, ◌≢◌, MatchOption};
ghost use Rattle.idl_tokens.specs.Terminals.{of_mark, opening as opening_of, closing as closing_of};
ghost use Rattle.idl_tokens.specs.Spellings.{mark_octet, open_octet, shut_octet};
ghost use Rattle.idl_tokens.specs.declared.marks.Mark.{Mark};
ghost use Rattle.idl_tokens.specs.declared.marks.Bracket.{Bracket};

use crate::class;

/// A mark that neither opens nor shuts: `,` `;` `:` `*` `=` `-` `.`
#[derive(Clone, Copy, Debug, PartialEq, Eq)]
pub enum Mark {
    Comma,
    Semicolon,
    Colon,
    Star,
    Equals,
    Minus,
    Dot,
}

/// A pair of brackets: `[ ]`, `( )` or `{ }`
#[derive(Clone, Copy, Debug, PartialEq, Eq)]
pub enum Bracket {
    Square,
    Round,
    Curly,
}

impl Mark {
    /// The class of the mark's tokens.
    pub fn class(self) -> u8
        ensures { result ≡ of_mark self }
    {
        match self {
            Mark::Comma => class::COMMA,
            Mark::Semicolon => class::SEMICOLON,
            Mark::Colon => class::COLON,
            Mark::Star => class::STAR,
            Mark::Equals => class::EQUALS,
            Mark::Minus => class::MINUS,
            Mark::Dot => class::DOT,
        }
    }

    /// How the mark is spelled.
    pub fn octet(self) -> u8
        ensures { result ≡ mark_octet self }
    {
        match self {
            Mark::Comma => b',',
            Mark::Semicolon => b';',
            Mark::Colon => b':',
            Mark::Star => b'*',
            Mark::Equals => b'=',
            Mark::Minus => b'-',
            Mark::Dot => b'.',
        }
    }

    /// The mark of that spelling.
    pub fn of_octet(octet: u8) -> Option<Mark>
        ensures { MatchOption result ((m : Mark) → octet ≢ mark_octet m) (λ m. octet ≡ mark_octet m) }
    {
        match octet {
            b',' => Some(Mark::Comma),
            b';' => Some(Mark::Semicolon),
            b':' => Some(Mark::Colon),
            b'*' => Some(Mark::Star),
            b'=' => Some(Mark::Equals),
            b'-' => Some(Mark::Minus),
            b'.' => Some(Mark::Dot),
            _ => None,
        }
    }
}

impl Bracket {
    /// The class of the bracket that opens.
    pub fn opening(self) -> u8
        ensures { result ≡ opening_of self }
    {
        match self {
            Bracket::Square => class::OPEN_SQUARE,
            Bracket::Round => class::OPEN_ROUND,
            Bracket::Curly => class::OPEN_CURLY,
        }
    }

    /// The class of the bracket that shuts.
    pub fn closing(self) -> u8
        ensures { result ≡ closing_of self }
    {
        match self {
            Bracket::Square => class::SHUT_SQUARE,
            Bracket::Round => class::SHUT_ROUND,
            Bracket::Curly => class::SHUT_CURLY,
        }
    }

    /// How the bracket that opens is spelled.
    pub fn open_octet(self) -> u8
        ensures { result ≡ open_octet self }
    {
        match self {
            Bracket::Square => b'[',
            Bracket::Round => b'(',
            Bracket::Curly => b'{',
        }
    }

    /// How the bracket that shuts is spelled.
    pub fn shut_octet(self) -> u8
        ensures { result ≡ shut_octet self }
    {
        match self {
            Bracket::Square => b']',
            Bracket::Round => b')',
            Bracket::Curly => b'}',
        }
    }

    /// The bracket that is opened by that octet.
    pub fn of_open_octet(octet: u8) -> Option<Bracket>
        ensures { MatchOption result ((b : Bracket) → octet ≢ open_octet b) (λ b. octet ≡ open_octet b) }
    {
        match octet {
            b'[' => Some(Bracket::Square),
            b'(' => Some(Bracket::Round),
            b'{' => Some(Bracket::Curly),
            _ => None,
        }
    }

    /// The bracket that is shut by that octet.
    pub fn of_shut_octet(octet: u8) -> Option<Bracket>
        ensures { MatchOption result ((b : Bracket) → octet ≢ shut_octet b) (λ b. octet ≡ shut_octet b) }
    {
        match octet {
            b']' => Some(Bracket::Square),
            b')' => Some(Bracket::Round),
            b'}' => Some(Bracket::Curly),
            _ => None,
        }
    }
}
