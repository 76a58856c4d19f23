//! Type specs and what they hold, which hold one another.
ghost use Rattle.std.specs.Prelude.{◌++◌, Some, None, OnOk};
ghost use Rattle.std.specs.List.{flat_map};
ghost use Rattle.idl_tokens.specs.declared.words.Word.TheVariants as words;
ghost use Rattle.idl_tokens.specs.declared.marks.Mark.TheVariants as marks;
ghost use Rattle.idl_tokens.specs.declared.marks.Bracket.TheVariants as brackets;
ghost use Rattle.idl_tree.specs.Pieces.{within, word_pieces, mark_pieces, if_ident};
ghost use Rattle.idl_tree.specs.Trees.{attr_kind_pieces, kind_pieces, spec_pieces, attr_pieces, attrs_pieces, member_pieces, switch_pieces, arm_member_pieces, arm_pieces, names_pieces, tag_pieces};
ghost use Rattle.idl_print.specs.Prints.{Prints};

use crate::Page;
use crate::attribute::{dtors, names, range, sized, switch_is, tag_alone};
use crate::leaf::{base, name_if, pk};
use crate::list::each;
use crate::tokens::{mark, name, open, shut, word};
use idl_tokens::{Bracket, Mark, Word};
use idl_tree::{ArmNode, Attr, AttrKind, Ident, Member, Spec, SpecKind, Switch};
use rpc_base::NoMemory;

#[cycle(specs)]
#[tactic(auto, using(crate::proofs::Printing::prints_placed))]
pub(crate) fn spec(page: &mut Page, spec: &Spec) -> Result<(), NoMemory>
    ensures { OnOk result (Prints (spec_pieces spec.now) page.old page.new) }
{
    kind(page, &spec.what)?;
    Ok(())
}

#[cycle(specs)]
#[tactic(auto, using(crate::proofs::Layered::kinds))]
fn kind(page: &mut Page, kind: &SpecKind) -> Result<(), NoMemory>
    ensures { OnOk result (Prints (kind_pieces kind.now) page.old page.new) }
{
    match kind {
        SpecKind::Base(of) => base(page, *of)?,
        SpecKind::Named(of) => name(page, of)?,
        SpecKind::Void => word(page, Word::Void)?,
        SpecKind::HandleT => word(page, Word::HandleT)?,
        SpecKind::ErrorStatus => word(page, Word::ErrorStatusT)?,
        SpecKind::Struct { tag, members } => match members {
            None => lone_structure(page, tag)?,
            Some(members) => structure(page, tag, members)?,
        },
        SpecKind::Union {
            tag,
            switch: switched,
            arms,
        } => match switched {
            None => {
                union_head(page, tag)?;
                union_body(page, arms)?;
            }
            Some(by) => {
                union_head(page, tag)?;
                switch(page, by)?;
                union_body(page, arms)?;
            }
        },
        SpecKind::Enum { tag, names } => enumeration(page, tag, names)?,
    }
    Ok(())
}

/// A structure without members.
#[tactic(auto, using(crate::proofs::Printing::printing))]
fn lone_structure(page: &mut Page, tag: &Option<Ident>) -> Result<(), NoMemory>
    ensures { OnOk result (Prints (word_pieces words.Struct ++ tag_pieces tag.now) page.old page.new) }
{
    word(page, Word::Struct)?;
    tag_alone(page, tag)?;
    Ok(())
}

#[cycle(specs)]
#[tactic(auto, using(crate::proofs::Printing::printing))]
fn structure(page: &mut Page, tag: &Option<Ident>, list: &[Member]) -> Result<(), NoMemory>
    ensures { OnOk result (Prints (word_pieces words.Struct ++ (if_ident tag.now ++ within brackets.Curly (flat_map member_pieces list.now))) page.old page.new) }
{
    word(page, Word::Struct)?;
    name_if(page, tag)?;
    open(page, Bracket::Curly)?;
    members(page, list)?;
    shut(page, Bracket::Curly)?;
    Ok(())
}

#[cycle(specs)]
#[tactic(auto, using(crate::proofs::Printing::lists))]
fn members(page: &mut Page, members: &[Member]) -> Result<(), NoMemory>
    ensures { OnOk result (Prints (flat_map member_pieces members.now) page.old page.new) }
{
    for one in members {
        member(page, one)?;
    }
    Ok(())
}

#[cycle(specs)]
#[tactic(auto, using(crate::proofs::Printing::printing))]
fn member(page: &mut Page, member: &Member) -> Result<(), NoMemory>
    ensures { OnOk result (Prints (member_pieces member.now) page.old page.new) }
{
    attrs(page, &member.attrs)?;
    spec(page, &member.spec)?;
    dtors(page, &member.dtors)?;
    mark(page, Mark::Semicolon)?;
    Ok(())
}

/// Attributes in their brackets, if there are any.
#[cycle(specs)]
#[tactic(auto, using(crate::proofs::Printing::printing))]
pub(crate) fn attrs(page: &mut Page, attrs: &[Attr]) -> Result<(), NoMemory>
    ensures { OnOk result (Prints (attrs_pieces attrs.now) page.old page.new) }
{
    match attrs.split_first() {
        None => {}
        Some((first, others)) => {
            open(page, Bracket::Square)?;
            attr(page, first)?;
            more_attrs(page, others)?;
            shut(page, Bracket::Square)?;
        }
    }
    Ok(())
}

/// Attributes, each behind a comma.
#[cycle(specs)]
#[tactic(auto, using(crate::proofs::Printing::commas))]
fn more_attrs(page: &mut Page, attrs: &[Attr]) -> Result<(), NoMemory>
    ensures { OnOk result (Prints (flat_map (λ y. mark_pieces marks.Comma ++ attr_pieces y) attrs.now) page.old page.new) }
{
    for one in attrs {
        mark(page, Mark::Comma)?;
        attr(page, one)?;
    }
    Ok(())
}

#[cycle(specs)]
#[tactic(auto, using(crate::proofs::Printing::prints_placed))]
fn attr(page: &mut Page, attr: &Attr) -> Result<(), NoMemory>
    ensures { OnOk result (Prints (attr_pieces attr.now) page.old page.new) }
{
    attr_kind(page, &attr.what)?;
    Ok(())
}

#[cycle(specs)]
#[tactic(auto, using(crate::proofs::Layered::attributes))]
fn attr_kind(page: &mut Page, kind: &AttrKind) -> Result<(), NoMemory>
    ensures { OnOk result (Prints (attr_kind_pieces kind.now) page.old page.new) }
{
    match kind {
        AttrKind::In => word(page, Word::In)?,
        AttrKind::Out => word(page, Word::Out)?,
        AttrKind::Pointer(class) => pk(page, *class)?,
        AttrKind::Text => word(page, Word::String)?,
        AttrKind::Idempotent => word(page, Word::Idempotent)?,
        AttrKind::Maybe => word(page, Word::Maybe)?,
        AttrKind::Handle => word(page, Word::ContextHandle)?,
        AttrKind::HandleSerialize => word(page, Word::ContextHandleSerialize)?,
        AttrKind::HandleNoserialize => word(page, Word::ContextHandleNoserialize)?,
        AttrKind::SizeIs(size) => sized(page, Word::SizeIs, size)?,
        AttrKind::MaxIs(size) => sized(page, Word::MaxIs, size)?,
        AttrKind::LengthIs(size) => sized(page, Word::LengthIs, size)?,
        AttrKind::SwitchIs { star, name } => switch_is(page, *star, name)?,
        AttrKind::SwitchType(of) => switch_type(page, of)?,
        AttrKind::Range(low, high) => range(page, *low, *high)?,
    }
    Ok(())
}

/// The attribute that gives the type of a union's tag.
#[cycle(specs)]
#[tactic(auto, using(crate::proofs::Printing::printing))]
fn switch_type(page: &mut Page, of: &Spec) -> Result<(), NoMemory>
    ensures { OnOk result (Prints (word_pieces words.SwitchType ++ within brackets.Round (spec_pieces of.now)) page.old page.new) }
{
    word(page, Word::SwitchType)?;
    open(page, Bracket::Round)?;
    spec(page, of)?;
    shut(page, Bracket::Round)?;
    Ok(())
}

/// The word of a union, and its tag.
#[tactic(auto, using(crate::proofs::Printing::printing))]
fn union_head(page: &mut Page, tag: &Option<Ident>) -> Result<(), NoMemory>
    ensures { OnOk result (Prints (word_pieces words.Union ++ if_ident tag.now) page.old page.new) }
{
    word(page, Word::Union)?;
    name_if(page, tag)?;
    Ok(())
}

/// The arms of a union, in their brackets.
#[cycle(specs)]
#[tactic(auto, using(crate::proofs::Printing::printing))]
fn union_body(page: &mut Page, list: &[ArmNode]) -> Result<(), NoMemory>
    ensures { OnOk result (Prints (within brackets.Curly (flat_map arm_pieces list.now)) page.old page.new) }
{
    open(page, Bracket::Curly)?;
    arms(page, list)?;
    shut(page, Bracket::Curly)?;
    Ok(())
}

#[cycle(specs)]
#[tactic(auto, using(crate::proofs::Printing::printing))]
fn switch(page: &mut Page, switch: &Switch) -> Result<(), NoMemory>
    ensures { OnOk result (Prints (switch_pieces switch.now) page.old page.new) }
{
    word(page, Word::Switch)?;
    open(page, Bracket::Round)?;
    spec(page, &switch.spec)?;
    name(page, &switch.name)?;
    shut(page, Bracket::Round)?;
    name_if(page, &switch.body)?;
    Ok(())
}

#[cycle(specs)]
#[tactic(auto, using(crate::proofs::Printing::lists))]
fn arms(page: &mut Page, arms: &[ArmNode]) -> Result<(), NoMemory>
    ensures { OnOk result (Prints (flat_map arm_pieces arms.now) page.old page.new) }
{
    for one in arms {
        arm(page, one)?;
    }
    Ok(())
}

#[cycle(specs)]
#[tactic(auto, using(crate::proofs::Printing::printing))]
fn arm(page: &mut Page, arm: &ArmNode) -> Result<(), NoMemory>
    ensures { OnOk result (Prints (arm_pieces arm.now) page.old page.new) }
{
    each(page, &arm.labels)?;
    match &arm.member {
        None => mark(page, Mark::Semicolon)?,
        Some(of) => member(page, of)?,
    }
    Ok(())
}

#[tactic(auto, using(crate::proofs::Printing::printing))]
fn enumeration(page: &mut Page, tag: &Option<Ident>, list: &[Ident]) -> Result<(), NoMemory>
    ensures { OnOk result (Prints (word_pieces words.Enum ++ (if_ident tag.now ++ within brackets.Curly (names_pieces list.now))) page.old page.new) }
{
    word(page, Word::Enum)?;
    name_if(page, tag)?;
    open(page, Bracket::Curly)?;
    names(page, list)?;
    shut(page, Bracket::Curly)?;
    Ok(())
}
