//! The laws of canonical texts.
ghost use Rattle.std.specs.Prelude.{◌≡◌, ℕ, Bool, List, []};
ghost use Rattle.idl_tokens.specs.Ebnf.{Matches};
ghost use Rattle.idl_tokens.specs.declared.kinds.Token.{Token};
ghost use Rattle.idl_tokens.specs.Terminals.{terminals};
ghost use Rattle.idl_tokens.specs.Tokens.{AreTokens};
ghost use Rattle.idl_print.specs.Layout.{kinds_of};
ghost use Rattle.idl_tree.specs.declared.declaration.Ast.{Ast};
ghost use Rattle.idl_tree.specs.Grammar.{rule, file};
ghost use Rattle.idl_tree.specs.Idl.{IsTree, IsIdl, FirstDeparture};
ghost use Rattle.idl_print.specs.Canonical.{canonical_text};

/// The canonical text of a tree that tokens of a text have has tokens of the same kinds.
pub fn canonical_text_has_the_same_kinds()
    ensures { (text : List ℕ) (tree : Ast) (ts : List Token) → AreTokens text ts → IsTree ts tree
        → (us : List Token) × AreTokens (canonical_text tree) us × (kinds_of us ≡ kinds_of ts) }
{}

/// The canonical text of a text's tree is of the grammar.
pub fn canonical_text_is_of_the_grammar()
    ensures { (text : List ℕ) (tree : Ast) → IsIdl text tree
        → (us : List Token) × AreTokens (canonical_text tree) us × Matches rule file (terminals us) [] }
{}

/// So it departs from the grammar nowhere.
pub fn canonical_text_departs_nowhere()
    ensures { (text : List ℕ) (tree : Ast) (us : List Token) (token : Token) (oversized : Bool) → IsIdl text tree → AreTokens (canonical_text tree) us
        → FirstDeparture us token oversized → ⊥ }
{}

/// Each tree of the canonical text spells tokens of the kinds that the printed tree does.
pub fn trees_of_the_canonical_text_spell_the_same()
    ensures { (text : List ℕ) (tree other : Ast) → (a : IsIdl text tree) → (b : IsIdl (canonical_text tree) other)
        → kinds_of b.tokens ≡ kinds_of a.tokens }
{}
