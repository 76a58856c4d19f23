//! Reserved words.
ghost use Rattle.std.specs.Prelude.{◌≡◌, ◌≢◌, ◌↔◌, IsTrue, MatchOption, All};
ghost use Rattle.idl_tokens.specs.Terminals.{of_word};
ghost use Rattle.idl_tokens.specs.Spellings.{word_text};
ghost use Rattle.idl_tokens.specs.declared.words.Word.{Word};

use crate::class;

/// A reserved word of the interface definition language (C706, "Interface Definition Language").
#[derive(Clone, Copy, Debug, PartialEq, Eq)]
pub enum Word {
    Interface,
    Uuid,
    Version,
    PointerDefault,
    Endpoint,
    Ref,
    Unique,
    Ptr,
    Const,
    Typedef,
    Void,
    In,
    Out,
    String,
    Idempotent,
    Maybe,
    ContextHandle,
    ContextHandleSerialize,
    ContextHandleNoserialize,
    SizeIs,
    MaxIs,
    LengthIs,
    SwitchIs,
    SwitchType,
    HandleT,
    ErrorStatusT,
    Boolean,
    Byte,
    Unsigned,
    Char,
    Small,
    Short,
    Long,
    Hyper,
    Int,
    Struct,
    Union,
    Switch,
    Enum,
    Case,
    Default,
}

impl Word {
    /// The class of the word's tokens.
    pub fn class(self) -> u8
        ensures { result ≡ of_word self }
    {
        match self {
            Word::Interface => class::INTERFACE,
            Word::Uuid => class::UUID_WORD,
            Word::Version => class::VERSION,
            Word::PointerDefault => class::POINTER_DEFAULT,
            Word::Endpoint => class::ENDPOINT,
            Word::Ref => class::REF,
            Word::Unique => class::UNIQUE,
            Word::Ptr => class::PTR,
            Word::Const => class::CONST,
            Word::Typedef => class::TYPEDEF,
            Word::Void => class::VOID,
            Word::In => class::IN,
            Word::Out => class::OUT,
            Word::String => class::STRING,
            Word::Idempotent => class::IDEMPOTENT,
            Word::Maybe => class::MAYBE,
            Word::ContextHandle => class::CONTEXT_HANDLE,
            Word::ContextHandleSerialize => class::CONTEXT_HANDLE_SERIALIZE,
            Word::ContextHandleNoserialize => class::CONTEXT_HANDLE_NOSERIALIZE,
            Word::SizeIs => class::SIZE_IS,
            Word::MaxIs => class::MAX_IS,
            Word::LengthIs => class::LENGTH_IS,
            Word::SwitchIs => class::SWITCH_IS,
            Word::SwitchType => class::SWITCH_TYPE,
            Word::HandleT => class::HANDLE_T,
            Word::ErrorStatusT => class::ERROR_STATUS_T,
            Word::Boolean => class::BOOLEAN,
            Word::Byte => class::BYTE,
            Word::Unsigned => class::UNSIGNED,
            Word::Char => class::CHAR,
            Word::Small => class::SMALL,
            Word::Short => class::SHORT,
            Word::Long => class::LONG,
            Word::Hyper => class::HYPER,
            Word::Int => class::INT,
            Word::Struct => class::STRUCT,
            Word::Union => class::UNION,
            Word::Switch => class::SWITCH,
            Word::Enum => class::ENUM,
            Word::Case => class::CASE,
            Word::Default => class::DEFAULT,
        }
    }

    /// How the word is spelled.
    pub fn text(self) -> &'static [u8]
        ensures { result.now ≡ word_text self }
    {
        match self {
            Word::Interface => b"interface",
            Word::Uuid => b"uuid",
            Word::Version => b"version",
            Word::PointerDefault => b"pointer_default",
            Word::Endpoint => b"endpoint",
            Word::Ref => b"ref",
            Word::Unique => b"unique",
            Word::Ptr => b"ptr",
            Word::Const => b"const",
            Word::Typedef => b"typedef",
            Word::Void => b"void",
            Word::In => b"in",
            Word::Out => b"out",
            Word::String => b"string",
            Word::Idempotent => b"idempotent",
            Word::Maybe => b"maybe",
            Word::ContextHandle => b"context_handle",
            Word::ContextHandleSerialize => b"context_handle_serialize",
            Word::ContextHandleNoserialize => b"context_handle_noserialize",
            Word::SizeIs => b"size_is",
            Word::MaxIs => b"max_is",
            Word::LengthIs => b"length_is",
            Word::SwitchIs => b"switch_is",
            Word::SwitchType => b"switch_type",
            Word::HandleT => b"handle_t",
            Word::ErrorStatusT => b"error_status_t",
            Word::Boolean => b"boolean",
            Word::Byte => b"byte",
            Word::Unsigned => b"unsigned",
            Word::Char => b"char",
            Word::Small => b"small",
            Word::Short => b"short",
            Word::Long => b"long",
            Word::Hyper => b"hyper",
            Word::Int => b"int",
            Word::Struct => b"struct",
            Word::Union => b"union",
            Word::Switch => b"switch",
            Word::Enum => b"enum",
            Word::Case => b"case",
            Word::Default => b"default",
        }
    }

    /// The reserved word of that spelling.
    pub fn of_text(text: &[u8]) -> Option<Word>
        ensures { MatchOption result ((w : Word) → text.now ≢ word_text w) (λ w. text.now ≡ word_text w) }
    {
        among(&WORDS, text)
    }

    fn is_spelled(self, text: &[u8]) -> bool
        ensures { IsTrue result ↔ (text.now ≡ word_text self) }
    {
        text == self.text()
    }
}

/// The first of these words that has that spelling.
fn among(words: &[Word], text: &[u8]) -> Option<Word>
    ensures { MatchOption result (All (λ w. text.now ≢ word_text w) words.now) (λ w. text.now ≡ word_text w) }
{
    for word in words {
        if word.is_spelled(text) {
            return Some(*word);
        }
    }
    None
}

/// The reserved words in the order of their classes.
const WORDS: [Word; 41] = [
    Word::Interface,
    Word::Uuid,
    Word::Version,
    Word::PointerDefault,
    Word::Endpoint,
    Word::Ref,
    Word::Unique,
    Word::Ptr,
    Word::Const,
    Word::Typedef,
    Word::Void,
    Word::In,
    Word::Out,
    Word::String,
    Word::Idempotent,
    Word::Maybe,
    Word::ContextHandle,
    Word::ContextHandleSerialize,
    Word::ContextHandleNoserialize,
    Word::SizeIs,
    Word::MaxIs,
    Word::LengthIs,
    Word::SwitchIs,
    Word::SwitchType,
    Word::HandleT,
    Word::ErrorStatusT,
    Word::Boolean,
    Word::Byte,
    Word::Unsigned,
    Word::Char,
    Word::Small,
    Word::Short,
    Word::Long,
    Word::Hyper,
    Word::Int,
    Word::Struct,
    Word::Union,
    Word::Switch,
    Word::Enum,
    Word::Case,
    Word::Default,
];
