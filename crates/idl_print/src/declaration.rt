//! Declarations and the attributes of an interface.
ghost use Rattle.std.specs.Prelude.{◌++◌, Bool, OnOk};
ghost use Rattle.std.specs.List.{flat_map};
ghost use Rattle.idl_tokens.specs.declared.words.Word.TheVariants as words;
ghost use Rattle.idl_tokens.specs.declared.marks.Mark.TheVariants as marks;
ghost use Rattle.idl_tokens.specs.declared.marks.Bracket.TheVariants as brackets;
ghost use Rattle.idl_tree.specs.Pieces.{within, commas, word_pieces, mark_pieces, ident_pieces, num_pieces, base_pieces, text_pieces};
ghost use Rattle.idl_tree.specs.Trees.{attrs_pieces, spec_pieces, dtors_pieces};
ghost use Rattle.idl_tree.specs.Files.{minor_pieces, file_attr_kind_pieces, file_attr_pieces, param_pieces, params_pieces, decl_kind_pieces, decl_pieces, ast_pieces};
ghost use Rattle.idl_print.specs.Prints.{Prints, constant_pieces};

use crate::Page;
use crate::attribute::dtors;
use crate::leaf::{base, dtor, num, pk, word_if};
use crate::list::{Print, each, with_commas};
use crate::tokens::{end, mark, name, open, shut, text, uuid, word};
use crate::types::{attrs, spec};
use idl_tokens::{Bracket, Mark, Word};
use idl_tree::{
    Ast, Attr, Base, Decl, DeclKind, Dtor, FileAttr, FileAttrKind, Ident, Num, ParamNode, Spec,
};
use rpc_base::{NoMemory, Octets};

impl Print for Octets {
    ghost pieces = { text_pieces };

    fn print(&self, page: &mut Page) -> Result<(), NoMemory> {
        text(page, self.as_slice())
    }
}

/// A point and the minor number of a version, if there is one.
#[tactic(auto, using(crate::proofs::Printing::printing), unfolding(idl_tree::specs::Files::minor_pieces))]
fn minor(page: &mut Page, minor: Option<Num>) -> Result<(), NoMemory>
    ensures { OnOk result (Prints (minor_pieces minor) page.old page.new) }
{
    match minor {
        None => {}
        Some(number) => {
            mark(page, Mark::Dot)?;
            num(page, number)?;
        }
    }
    Ok(())
}

/// The brackets behind the word of an attribute of an interface, and what stands in them.
#[tactic(auto, using(crate::proofs::Printing::printing), unfolding(idl_tree::specs::Files::file_attr_kind_pieces))]
fn file_attr_kind(page: &mut Page, kind: &FileAttrKind) -> Result<(), NoMemory>
    ensures { OnOk result (Prints (file_attr_kind_pieces kind.now) page.old page.new) }
{
    match kind {
        FileAttrKind::Uuid(id) => {
            word(page, Word::Uuid)?;
            open(page, Bracket::Round)?;
            uuid(page, *id)?;
            shut(page, Bracket::Round)?;
        }
        FileAttrKind::Version(major, lesser) => {
            word(page, Word::Version)?;
            open(page, Bracket::Round)?;
            num(page, *major)?;
            minor(page, *lesser)?;
            shut(page, Bracket::Round)?;
        }
        FileAttrKind::PointerDefault(class) => {
            word(page, Word::PointerDefault)?;
            open(page, Bracket::Round)?;
            pk(page, *class)?;
            shut(page, Bracket::Round)?;
        }
        FileAttrKind::Endpoint(texts) => {
            word(page, Word::Endpoint)?;
            open(page, Bracket::Round)?;
            with_commas(page, texts)?;
            shut(page, Bracket::Round)?;
        }
    }
    Ok(())
}

impl Print for FileAttr {
    ghost pieces = { file_attr_pieces };

    #[tactic(auto, using(crate::proofs::Printing::prints_placed), unfolding(idl_tree::specs::Files::file_attr_pieces))]
    fn print(&self, page: &mut Page) -> Result<(), NoMemory> {
        file_attr_kind(page, &self.what)?;
        Ok(())
    }
}

impl Print for ParamNode {
    ghost pieces = { param_pieces };

    #[tactic(auto, using(crate::proofs::Printing::printing), unfolding(idl_tree::specs::Files::param_pieces))]
    fn print(&self, page: &mut Page) -> Result<(), NoMemory> {
        attrs(page, &self.attrs)?;
        spec(page, &self.spec)?;
        dtor(page, &self.dtor)?;
        Ok(())
    }
}

/// What stands between the brackets of an operation.
#[tactic(auto, using(crate::proofs::Printing::printing), unfolding(idl_tree::specs::Files::params_pieces, idl_tree::specs::Pieces::if_word))]
fn params(page: &mut Page, void_word: bool, list: &[ParamNode]) -> Result<(), NoMemory>
    ensures { OnOk result (Prints (params_pieces void_word list.now) page.old page.new) }
{
    word_if(page, void_word, Word::Void)?;
    with_commas(page, list)?;
    Ok(())
}

#[tactic(auto, using(crate::proofs::Printing::printing), unfolding(idl_tree::specs::Files::decl_kind_pieces))]
fn constant(page: &mut Page, of: Base, of_name: &Ident, value: Num) -> Result<(), NoMemory>
    ensures { OnOk result (Prints (constant_pieces of of_name.now value) page.old page.new) }
{
    word(page, Word::Const)?;
    base(page, of)?;
    name(page, of_name)?;
    mark(page, Mark::Equals)?;
    num(page, value)?;
    mark(page, Mark::Semicolon)?;
    Ok(())
}

#[tactic(auto, using(crate::proofs::Printing::printing))]
fn typedef(page: &mut Page, of: &[Attr], ty: &Spec, list: &[Dtor]) -> Result<(), NoMemory>
    ensures { OnOk result (Prints (word_pieces words.Typedef ++ (attrs_pieces of.now ++ (spec_pieces ty.now ++ (dtors_pieces list.now ++ mark_pieces marks.Semicolon)))) page.old page.new) }
{
    word(page, Word::Typedef)?;
    attrs(page, of)?;
    spec(page, ty)?;
    dtors(page, list)?;
    mark(page, Mark::Semicolon)?;
    Ok(())
}

/// A spec that stands alone.
#[tactic(auto, using(crate::proofs::Printing::printing))]
fn lone(page: &mut Page, of: &[Attr], ty: &Spec) -> Result<(), NoMemory>
    ensures { OnOk result (Prints (attrs_pieces of.now ++ (spec_pieces ty.now ++ mark_pieces marks.Semicolon)) page.old page.new) }
{
    attrs(page, of)?;
    spec(page, ty)?;
    mark(page, Mark::Semicolon)?;
    Ok(())
}

/// The parameters of an operation, in their brackets.
#[tactic(auto, using(crate::proofs::Printing::printing))]
fn param_list(page: &mut Page, void_word: bool, list: &[ParamNode]) -> Result<(), NoMemory>
    ensures { OnOk result (Prints (within brackets.Round (params_pieces void_word list.now)) page.old page.new) }
{
    open(page, Bracket::Round)?;
    params(page, void_word, list)?;
    shut(page, Bracket::Round)?;
    Ok(())
}

#[tactic(auto, using(crate::proofs::Printing::printing), unfolding(idl_tree::specs::Files::decl_kind_pieces))]
fn decl_kind(page: &mut Page, kind: &DeclKind) -> Result<(), NoMemory>
    ensures { OnOk result (Prints (decl_kind_pieces kind.now) page.old page.new) }
{
    match kind {
        DeclKind::Const { base, name, value } => constant(page, *base, name, *value)?,
        DeclKind::Typedef { attrs, spec, dtors } => typedef(page, attrs, spec, dtors)?,
        DeclKind::Lone { attrs, spec } => lone(page, attrs, spec)?,
        DeclKind::Op {
            attrs: of,
            spec: ty,
            name: of_name,
            void_word,
            params,
        } => {
            attrs(page, of)?;
            spec(page, ty)?;
            name(page, of_name)?;
            param_list(page, *void_word, params)?;
            mark(page, Mark::Semicolon)?;
        }
    }
    Ok(())
}

impl Print for Decl {
    ghost pieces = { decl_pieces };

    #[tactic(auto, using(crate::proofs::Printing::prints_placed), unfolding(idl_tree::specs::Files::decl_pieces))]
    fn print(&self, page: &mut Page) -> Result<(), NoMemory> {
        decl_kind(page, &self.what)?;
        Ok(())
    }
}

/// The attributes of an interface, in their brackets.
#[tactic(auto, using(crate::proofs::Printing::printing))]
fn file_attrs(page: &mut Page, attributes: &[FileAttr]) -> Result<(), NoMemory>
    ensures { OnOk result (Prints (within brackets.Square (commas file_attr_pieces attributes.now)) page.old page.new) }
{
    open(page, Bracket::Square)?;
    with_commas(page, attributes)?;
    shut(page, Bracket::Square)?;
    Ok(())
}

/// The declarations of an interface, in their brackets.
#[tactic(auto, using(crate::proofs::Printing::printing))]
fn decls(page: &mut Page, decls: &[Decl]) -> Result<(), NoMemory>
    ensures { OnOk result (Prints (within brackets.Curly (flat_map decl_pieces decls.now)) page.old page.new) }
{
    open(page, Bracket::Curly)?;
    each(page, decls)?;
    shut(page, Bracket::Curly)?;
    Ok(())
}

/// A whole tree.
#[tactic(auto, using(crate::proofs::Printing::printing), unfolding(idl_tree::specs::Files::ast_pieces))]
pub(crate) fn ast(page: &mut Page, ast: &Ast) -> Result<(), NoMemory>
    ensures { OnOk result (Prints (ast_pieces ast.now) page.old page.new) }
{
    file_attrs(page, &ast.attributes)?;
    word(page, Word::Interface)?;
    name(page, &ast.name)?;
    decls(page, &ast.decls)?;
    end(page)?;
    Ok(())
}
