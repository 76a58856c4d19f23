//! Copies of declarations and of whole trees.
ghost use Rattle.std.specs.Prelude.{◌≡◌, map, IfOk};
ghost use Rattle.idl_forms.specs.Forms.{Same, decl_form, decl_kind_form, param_form, file_form, file_kind_form};

use crate::copied_leaves::{dtor, dtors, ident, texts};
use crate::copied_types::{attrs_copied, spec_copied};
use idl_tree::{Ast, Decl, DeclKind, FileAttr, FileAttrKind, ParamNode};
use rpc_base::NoMemory;
use std::alloc::Global;

fn file_attr_kind(kind: &FileAttrKind, alloc: Global) -> Result<FileAttrKind, NoMemory>
    ensures { IfOk result (λ copy. file_kind_form copy ≡ file_kind_form kind.now) }
{
    match kind {
        FileAttrKind::Uuid(id) => Ok(FileAttrKind::Uuid(*id)),
        FileAttrKind::Version(major, minor) => Ok(FileAttrKind::Version(*major, *minor)),
        FileAttrKind::PointerDefault(class) => Ok(FileAttrKind::PointerDefault(*class)),
        FileAttrKind::Endpoint(list) => Ok(FileAttrKind::Endpoint(texts(list, alloc)?)),
    }
}

fn file_attrs(list: &[FileAttr], alloc: Global) -> Result<Vec<FileAttr>, NoMemory>
    ensures { IfOk result (λ copy. map file_form copy.items ≡ map file_form list.now) }
{
    let mut copies = Vec::new(alloc);
    for attr in list {
        let what = file_attr_kind(&attr.what, alloc)?;
        copies.push(FileAttr { at: attr.at, what })?;
    }
    Ok(copies)
}

fn param(param: &ParamNode, alloc: Global) -> Result<ParamNode, NoMemory>
    ensures { IfOk result (λ copy. param_form copy ≡ param_form param.now) }
{
    let attrs = attrs_copied(&param.attrs, alloc)?;
    let spec = spec_copied(&param.spec, alloc)?;
    let dtor = dtor(&param.dtor, alloc)?;
    Ok(ParamNode { attrs, spec, dtor })
}

fn params(list: &[ParamNode], alloc: Global) -> Result<Vec<ParamNode>, NoMemory>
    ensures { IfOk result (λ copy. map param_form copy.items ≡ map param_form list.now) }
{
    let mut copies = Vec::new(alloc);
    for item in list {
        copies.push(param(item, alloc)?)?;
    }
    Ok(copies)
}

fn decl_kind(kind: &DeclKind, alloc: Global) -> Result<DeclKind, NoMemory>
    ensures { IfOk result (λ copy. decl_kind_form copy ≡ decl_kind_form kind.now) }
{
    match kind {
        DeclKind::Const { base, name, value } => Ok(DeclKind::Const {
            base: *base,
            name: ident(name, alloc)?,
            value: *value,
        }),
        DeclKind::Typedef {
            attrs,
            spec,
            dtors: list,
        } => {
            let attrs = attrs_copied(attrs, alloc)?;
            let spec = spec_copied(spec, alloc)?;
            let dtors = dtors(list, alloc)?;
            Ok(DeclKind::Typedef { attrs, spec, dtors })
        }
        DeclKind::Lone { attrs, spec } => {
            let attrs = attrs_copied(attrs, alloc)?;
            let spec = spec_copied(spec, alloc)?;
            Ok(DeclKind::Lone { attrs, spec })
        }
        DeclKind::Op {
            attrs,
            spec,
            name,
            void_word,
            params: list,
        } => {
            let attrs = attrs_copied(attrs, alloc)?;
            let spec = spec_copied(spec, alloc)?;
            let name = ident(name, alloc)?;
            let params = params(list, alloc)?;
            Ok(DeclKind::Op {
                attrs,
                spec,
                name,
                void_word: *void_word,
                params,
            })
        }
    }
}

fn decls(list: &[Decl], alloc: Global) -> Result<Vec<Decl>, NoMemory>
    ensures { IfOk result (λ copy. map decl_form copy.items ≡ map decl_form list.now) }
{
    let mut copies = Vec::new(alloc);
    for decl in list {
        let what = decl_kind(&decl.what, alloc)?;
        copies.push(Decl { at: decl.at, what })?;
    }
    Ok(copies)
}

/// A tree that is the same in every item.
///
/// # Errors
///
/// `NoMemory` where there is no memory for the copy.
pub fn copy_tree(alloc: Global, tree: &Ast) -> Result<Ast, NoMemory>
    ensures { IfOk result (λ copy. Same copy tree.now) }
{
    let attributes = file_attrs(&tree.attributes, alloc)?;
    let name = ident(&tree.name, alloc)?;
    let decls = decls(&tree.decls, alloc)?;
    Ok(Ast {
        attributes,
        name,
        decls,
    })
}
