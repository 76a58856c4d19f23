//! Single tokens of a tree.
ghost use Rattle.std.specs.Prelude.{[], ◌∷◌, OnOk};
ghost use Rattle.idl_tokens.specs.declared.kinds.Kind.TheVariants as kinds;
ghost use Rattle.idl_tree.specs.Pieces.{alone, word_pieces, mark_pieces, open_pieces, shut_pieces, end_pieces, text_pieces, uuid_pieces, ident_pieces, range_pieces};
ghost use Rattle.idl_print.specs.Prints.{Prints};

use crate::Page;
use idl_tokens::{Bracket, Mark, RANGE_WORD, Word};
use idl_tree::Ident;
use rpc_base::NoMemory;
use uuid::Uuid;

#[tactic(auto, unfolding(crate::specs::Prints::Prints, idl_tree::specs::Pieces::word_pieces))]
pub(crate) fn word(page: &mut Page, word: Word) -> Result<(), NoMemory>
    ensures { OnOk result (Prints (word_pieces word) page.old page.new) }
{
    page.word(word)
}

#[tactic(auto, unfolding(crate::specs::Prints::Prints, idl_tree::specs::Pieces::mark_pieces))]
pub(crate) fn mark(page: &mut Page, mark: Mark) -> Result<(), NoMemory>
    ensures { OnOk result (Prints (mark_pieces mark) page.old page.new) }
{
    page.mark(mark)
}

#[tactic(auto, unfolding(crate::specs::Prints::Prints, idl_tree::specs::Pieces::open_pieces))]
pub(crate) fn open(page: &mut Page, bracket: Bracket) -> Result<(), NoMemory>
    ensures { OnOk result (Prints (open_pieces bracket) page.old page.new) }
{
    page.open(bracket)
}

#[tactic(auto, unfolding(crate::specs::Prints::Prints, idl_tree::specs::Pieces::shut_pieces))]
pub(crate) fn shut(page: &mut Page, bracket: Bracket) -> Result<(), NoMemory>
    ensures { OnOk result (Prints (shut_pieces bracket) page.old page.new) }
{
    page.shut(bracket)
}

#[tactic(auto, unfolding(crate::specs::Prints::Prints, idl_tree::specs::Pieces::end_pieces))]
pub(crate) fn end(page: &mut Page) -> Result<(), NoMemory>
    ensures { OnOk result (Prints end_pieces page.old page.new) }
{
    page.end()
}

/// A string, given without its quotes.
#[tactic(auto, unfolding(crate::specs::Prints::Prints, idl_tree::specs::Pieces::text_pieces))]
pub(crate) fn text(page: &mut Page, inside: &[u8]) -> Result<(), NoMemory>
    ensures { OnOk result (Prints (text_pieces inside.now) page.old page.new) }
{
    page.text(inside)
}

#[tactic(auto, unfolding(crate::specs::Prints::Prints, idl_tree::specs::Pieces::uuid_pieces))]
pub(crate) fn uuid(page: &mut Page, id: Uuid) -> Result<(), NoMemory>
    ensures { OnOk result (Prints (uuid_pieces id) page.old page.new) }
{
    page.uuid(id)
}

#[tactic(auto, unfolding(crate::specs::Prints::Prints, idl_tree::specs::Pieces::ident_pieces))]
pub(crate) fn name(page: &mut Page, name: &Ident) -> Result<(), NoMemory>
    ensures { OnOk result (Prints (ident_pieces name.now) page.old page.new) }
{
    page.name(name.text.as_slice())
}

/// The word `range`, which is a name elsewhere.
#[tactic(auto, unfolding(crate::specs::Prints::Prints, idl_tree::specs::Pieces::range_pieces))]
pub(crate) fn range_word(page: &mut Page) -> Result<(), NoMemory>
    ensures { OnOk result (Prints range_pieces page.old page.new) }
{
    page.name(RANGE_WORD)
}

/// What stands where a tree is that of no text.
#[tactic(auto, unfolding(crate::specs::Prints::Prints))]
pub(crate) fn bad(page: &mut Page) -> Result<(), NoMemory>
    ensures { OnOk result (Prints (alone kinds.Bad ∷ []) page.old page.new) }
{
    page.bad()
}
