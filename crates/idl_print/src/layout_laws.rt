//! The law of printed texts.
ghost use Rattle.std.specs.Prelude.{◌≡◌, ℕ, List};
ghost use Rattle.idl_tokens.specs.declared.kinds.Token.{Token};
ghost use Rattle.idl_tokens.specs.Tokens.{AreTokens};
ghost use Rattle.idl_print.specs.Layout.{HaveTexts, kinds_of, layout};

/// What is printed of a text's tokens has tokens of the same kinds again, if each of them has a
/// spelling.
pub fn printed_text_has_the_same_kinds()
    ensures { (text : List ℕ) (ts : List Token) → AreTokens text ts → HaveTexts (kinds_of ts)
        → (us : List Token) × AreTokens (layout (kinds_of ts)) us × (kinds_of us ≡ kinds_of ts) }
{}
