//! Laws of tokens.
ghost use Rattle.std.specs.Prelude.{◌≡◌, ℕ, List};
ghost use Rattle.idl_tokens.specs.declared.kinds.Token.{Token};
ghost use Rattle.idl_tokens.specs.Laws.{EndsOnce, PlacesRise};
ghost use Rattle.idl_tokens.specs.Tokens.{AreTokens};

/// A text has one list of tokens.
pub fn text_has_one_list_of_tokens()
    ensures { (text : List ℕ) (a b : List Token) → AreTokens text a → AreTokens text b → a ≡ b }
{}

/// The last token ends the text, and no other does.
pub fn tokens_end_once()
    ensures { (text : List ℕ) (ts : List Token) → AreTokens text ts → EndsOnce ts }
{}

/// The tokens stand in the order of their places.
pub fn places_rise()
    ensures { (text : List ℕ) (ts : List Token) → AreTokens text ts → PlacesRise ts }
{}
