//! What the layout sees of a token.
ghost use Rattle.std.specs.Prelude.{◌≡◌};
ghost use Rattle.idl_print.specs.Layout.{clings as clings_test, closes_brace as closes_test, ends_line as ends_test, is_end as end_test, clings_to_all, clings_to_name};

use idl_tokens::{Bracket, Mark, Word};

/// A token without what it says.
#[derive(Clone, Copy, Debug, PartialEq, Eq)]
pub enum Sort {
    Word(Word),
    Name,
    Number,
    Text,
    Uuid,
    Mark(Mark),
    Open(Bracket),
    Shut(Bracket),
    /// The end of the text.
    End,
}

impl Sort {
    pub(crate) fn is_end(self) -> bool
        ensures { result ≡ end_test self }
    {
        matches!(self, Sort::End)
    }

    pub(crate) fn closes_brace(self) -> bool
        ensures { result ≡ closes_test self }
    {
        matches!(self, Sort::Shut(Bracket::Curly))
    }

    /// Whether a line ends between this token and the next.
    pub(crate) fn ends_line(self, next: Sort) -> bool
        ensures { result ≡ ends_test self next }
    {
        match self {
            Sort::Open(Bracket::Curly) | Sort::Mark(Mark::Semicolon) => true,
            Sort::Shut(Bracket::Square) => matches!(next, Sort::Word(Word::Interface)),
            _ => false,
        }
    }

    /// Whether no space stands between this token and the next.
    pub(crate) fn clings(self, next: Sort) -> bool
        ensures { result ≡ clings_test self next }
    {
        match self {
            Sort::Open(Bracket::Round | Bracket::Square) | Sort::Mark(Mark::Star | Mark::Dot) => {
                true
            }
            Sort::Name => next.clings_to_name(),
            _ => next.clings_to_all(),
        }
    }

    /// Whether no space stands before this token, whatever it follows.
    fn clings_to_all(self) -> bool
        ensures { result ≡ clings_to_all self }
    {
        match self {
            Sort::Mark(Mark::Comma | Mark::Semicolon | Mark::Colon | Mark::Dot) => true,
            Sort::Shut(Bracket::Round | Bracket::Square) | Sort::Open(Bracket::Round) => true,
            _ => false,
        }
    }

    /// Whether none stands between a name and this token: `[` there begins a declarator's array.
    fn clings_to_name(self) -> bool
        ensures { result ≡ clings_to_name self }
    {
        matches!(self, Sort::Open(Bracket::Square)) || self.clings_to_all()
    }
}
