//! Attributes and labels that hold no type spec.
ghost use Rattle.std.specs.Prelude.{◌++◌, OnOk};
ghost use Rattle.idl_tokens.specs.declared.words.Word.TheVariants as words;
ghost use Rattle.idl_tokens.specs.declared.marks.Mark.TheVariants as marks;
ghost use Rattle.idl_tokens.specs.declared.marks.Bracket.TheVariants as brackets;
ghost use Rattle.idl_tree.specs.Pieces.{within, word_pieces, ident_pieces, if_mark, dtor_pieces, ref_pieces, range_pieces, bounds_pieces};
ghost use Rattle.idl_tree.specs.Trees.{label_kind_pieces, label_pieces, dtors_pieces, names_pieces, tag_pieces};
ghost use Rattle.idl_print.specs.Prints.{Prints};

use crate::Page;
use crate::leaf::{dtor, mark_if, num, size_ref};
use crate::list::{Print, with_commas};
use crate::tokens::{bad, mark, name, open, range_word, shut, word};
use idl_tokens::{Bracket, Mark, Word};
use idl_tree::{Dtor, Ident, Label, LabelKind, Num, SizeRef};
use rpc_base::NoMemory;

/// A word and a size in brackets.
#[tactic(auto, using(crate::proofs::Printing::printing))]
pub(crate) fn sized(page: &mut Page, which: Word, size: &SizeRef) -> Result<(), NoMemory>
    ensures { OnOk result (Prints (word_pieces which ++ within brackets.Round (ref_pieces size.now)) page.old page.new) }
{
    word(page, which)?;
    open(page, Bracket::Round)?;
    size_ref(page, size)?;
    shut(page, Bracket::Round)?;
    Ok(())
}

/// The attribute that names a union's tag.
#[tactic(auto, using(crate::proofs::Printing::printing))]
pub(crate) fn switch_is(page: &mut Page, star: bool, tag: &Ident) -> Result<(), NoMemory>
    ensures { OnOk result (Prints (word_pieces words.SwitchIs ++ within brackets.Round (if_mark star marks.Star ++ ident_pieces tag.now)) page.old page.new) }
{
    word(page, Word::SwitchIs)?;
    open(page, Bracket::Round)?;
    mark_if(page, star, Mark::Star)?;
    name(page, tag)?;
    shut(page, Bracket::Round)?;
    Ok(())
}

#[tactic(auto, using(crate::proofs::Printing::printing), unfolding(idl_tree::specs::Pieces::bounds_pieces))]
fn bounds(page: &mut Page, low: Num, high: Num) -> Result<(), NoMemory>
    ensures { OnOk result (Prints (bounds_pieces low high) page.old page.new) }
{
    num(page, low)?;
    mark(page, Mark::Comma)?;
    num(page, high)?;
    Ok(())
}

/// The attribute that bounds a parameter's numbers.
#[tactic(auto, using(crate::proofs::Printing::printing))]
pub(crate) fn range(page: &mut Page, low: Num, high: Num) -> Result<(), NoMemory>
    ensures { OnOk result (Prints (range_pieces ++ within brackets.Round (bounds_pieces low high)) page.old page.new) }
{
    range_word(page)?;
    open(page, Bracket::Round)?;
    bounds(page, low, high)?;
    shut(page, Bracket::Round)?;
    Ok(())
}

#[tactic(auto, using(crate::proofs::Printing::printing), unfolding(idl_tree::specs::Trees::label_kind_pieces))]
fn label_kind(page: &mut Page, label: &LabelKind) -> Result<(), NoMemory>
    ensures { OnOk result (Prints (label_kind_pieces label.now) page.old page.new) }
{
    match label {
        LabelKind::Number(value) => {
            word(page, Word::Case)?;
            num(page, *value)?;
            mark(page, Mark::Colon)?;
        }
        LabelKind::Named(value) => {
            word(page, Word::Case)?;
            name(page, value)?;
            mark(page, Mark::Colon)?;
        }
        LabelKind::Default => {
            word(page, Word::Default)?;
            mark(page, Mark::Colon)?;
        }
    }
    Ok(())
}

impl Print for Label {
    ghost pieces = { label_pieces };

    #[tactic(auto, using(crate::proofs::Printing::printing), unfolding(idl_tree::specs::Trees::label_pieces))]
    fn print(&self, page: &mut Page) -> Result<(), NoMemory> {
        label_kind(page, &self.what)?;
        Ok(())
    }
}

impl Print for Dtor {
    ghost pieces = { dtor_pieces };

    fn print(&self, page: &mut Page) -> Result<(), NoMemory> {
        dtor(page, self)
    }
}

impl Print for Ident {
    ghost pieces = { ident_pieces };

    fn print(&self, page: &mut Page) -> Result<(), NoMemory> {
        name(page, self)
    }
}

/// The declarators of one spec.
#[tactic(auto, using(crate::proofs::Printing::printing), unfolding(idl_tree::specs::Trees::dtors_pieces))]
pub(crate) fn dtors(page: &mut Page, dtors: &[Dtor]) -> Result<(), NoMemory>
    ensures { OnOk result (Prints (dtors_pieces dtors.now) page.old page.new) }
{
    match dtors.split_first() {
        None => bad(page)?,
        Some(_) => with_commas(page, dtors)?,
    }
    Ok(())
}

/// The names of an enum.
#[tactic(auto, unfolding(idl_tree::specs::Trees::names_pieces))]
pub(crate) fn names(page: &mut Page, names: &[Ident]) -> Result<(), NoMemory>
    ensures { OnOk result (Prints (names_pieces names.now) page.old page.new) }
{
    with_commas(page, names)
}

/// The tag of a structure without members.
#[tactic(auto, unfolding(idl_tree::specs::Trees::tag_pieces))]
pub(crate) fn tag_alone(page: &mut Page, tag: &Option<Ident>) -> Result<(), NoMemory>
    ensures { OnOk result (Prints (tag_pieces tag.now) page.old page.new) }
{
    match tag {
        None => bad(page)?,
        Some(tag) => name(page, tag)?,
    }
    Ok(())
}
