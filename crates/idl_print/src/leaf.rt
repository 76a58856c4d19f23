//! The parts that hold no others of their kind.
ghost use Rattle.std.specs.Prelude.{OnOk};
ghost use Rattle.idl_tokens.specs.declared.marks.Mark.TheVariants as marks;
ghost use Rattle.idl_tree.specs.Pieces.{if_word, if_mark, if_ident, num_pieces, pk_pieces, int_size_pieces, base_pieces, size_pieces, array_pieces, star_pieces, dtor_pieces, ref_pieces};
ghost use Rattle.idl_print.specs.Prints.{Prints};

use crate::Page;
use crate::tokens::{bad, mark, name, open, shut, word};
use idl_tokens::{Bracket, Mark, Word};
use idl_tree::{ArraySize, Base, Dtor, Ident, Num, Pk, SizeRef};
use rpc_base::NoMemory;

/// A word that may be left out.
#[tactic(auto, using(crate::proofs::Printing::printing), unfolding(idl_tree::specs::Pieces::if_word))]
pub(crate) fn word_if(page: &mut Page, stands: bool, which: Word) -> Result<(), NoMemory>
    ensures { OnOk result (Prints (if_word stands which) page.old page.new) }
{
    if stands {
        word(page, which)?;
    }
    Ok(())
}

/// A mark that may be left out.
#[tactic(auto, using(crate::proofs::Printing::printing), unfolding(idl_tree::specs::Pieces::if_mark))]
pub(crate) fn mark_if(page: &mut Page, stands: bool, which: Mark) -> Result<(), NoMemory>
    ensures { OnOk result (Prints (if_mark stands which) page.old page.new) }
{
    if stands {
        mark(page, which)?;
    }
    Ok(())
}

/// A name that may be left out.
#[tactic(auto, using(crate::proofs::Printing::printing), unfolding(idl_tree::specs::Pieces::if_ident))]
pub(crate) fn name_if(page: &mut Page, tag: &Option<Ident>) -> Result<(), NoMemory>
    ensures { OnOk result (Prints (if_ident tag.now) page.old page.new) }
{
    match tag {
        None => {}
        Some(tag) => name(page, tag)?,
    }
    Ok(())
}

#[tactic(auto, using(crate::proofs::Printing::prints_num))]
pub(crate) fn num(page: &mut Page, num: Num) -> Result<(), NoMemory>
    ensures { OnOk result (Prints (num_pieces num) page.old page.new) }
{
    mark_if(page, num.minus, Mark::Minus)?;
    page.number(num.value)
}

/// A pointer class.
#[tactic(auto, unfolding(idl_tree::specs::Pieces::pk_pieces, idl_tree::specs::Pieces::pk_word))]
pub(crate) fn pk(page: &mut Page, pk: Pk) -> Result<(), NoMemory>
    ensures { OnOk result (Prints (pk_pieces pk) page.old page.new) }
{
    match pk {
        Pk::Ref => word(page, Word::Ref),
        Pk::Unique => word(page, Word::Unique),
        Pk::Ptr => word(page, Word::Ptr),
    }
}

/// The word of an integer of so many octets.
#[tactic(auto, unfolding(idl_tree::specs::Pieces::int_size_pieces))]
fn int_size(page: &mut Page, size: u8) -> Result<(), NoMemory>
    ensures { OnOk result (Prints (int_size_pieces size) page.old page.new) }
{
    match size {
        1 => word(page, Word::Small),
        2 => word(page, Word::Short),
        4 => word(page, Word::Long),
        8 => word(page, Word::Hyper),
        _ => bad(page),
    }
}

#[tactic(auto, using(crate::proofs::Printing::printing), unfolding(idl_tree::specs::Pieces::base_pieces))]
pub(crate) fn base(page: &mut Page, base: Base) -> Result<(), NoMemory>
    ensures { OnOk result (Prints (base_pieces base) page.old page.new) }
{
    match base {
        Base::Boolean => word(page, Word::Boolean)?,
        Base::Byte => word(page, Word::Byte)?,
        Base::Char { unsigned } => {
            word_if(page, unsigned, Word::Unsigned)?;
            word(page, Word::Char)?;
        }
        Base::Int {
            unsigned,
            size,
            int_word,
        } => {
            word_if(page, unsigned, Word::Unsigned)?;
            int_size(page, size)?;
            word_if(page, int_word, Word::Int)?;
        }
    }
    Ok(())
}

#[tactic(auto, using(crate::proofs::Printing::printing), unfolding(idl_tree::specs::Pieces::size_pieces))]
fn array_size(page: &mut Page, size: &ArraySize) -> Result<(), NoMemory>
    ensures { OnOk result (Prints (size_pieces size.now) page.old page.new) }
{
    match size {
        ArraySize::Empty => {}
        ArraySize::Number(number) => num(page, *number)?,
        ArraySize::Named(size) => name(page, size)?,
        ArraySize::Star => mark(page, Mark::Star)?,
    }
    Ok(())
}

/// The brackets of an array, if it is one.
#[tactic(auto, using(crate::proofs::Printing::printing), unfolding(idl_tree::specs::Pieces::array_pieces))]
fn array(page: &mut Page, array: &Option<ArraySize>) -> Result<(), NoMemory>
    ensures { OnOk result (Prints (array_pieces array.now) page.old page.new) }
{
    match array {
        None => {}
        Some(size) => {
            open(page, Bracket::Square)?;
            array_size(page, size)?;
            shut(page, Bracket::Square)?;
        }
    }
    Ok(())
}

#[tactic(auto, using(crate::proofs::Printing::stars))]
fn stars(page: &mut Page, count: usize) -> Result<(), NoMemory>
    ensures { OnOk result (Prints (star_pieces count) page.old page.new) }
{
    for _star in 0..count {
        mark(page, Mark::Star)?;
    }
    Ok(())
}

#[tactic(auto, using(crate::proofs::Printing::printing), unfolding(idl_tree::specs::Pieces::dtor_pieces))]
pub(crate) fn dtor(page: &mut Page, dtor: &Dtor) -> Result<(), NoMemory>
    ensures { OnOk result (Prints (dtor_pieces dtor.now) page.old page.new) }
{
    stars(page, dtor.stars)?;
    name(page, &dtor.name)?;
    array(page, &dtor.array)
}

/// What an attribute gives as a size.
#[tactic(auto, using(crate::proofs::Printing::printing), unfolding(idl_tree::specs::Pieces::ref_pieces))]
pub(crate) fn size_ref(page: &mut Page, size: &SizeRef) -> Result<(), NoMemory>
    ensures { OnOk result (Prints (ref_pieces size.now) page.old page.new) }
{
    match size {
        SizeRef::Named { star, name: size } => {
            mark_if(page, *star, Mark::Star)?;
            name(page, size)?;
        }
        SizeRef::Number(number) => num(page, *number)?,
    }
    Ok(())
}
