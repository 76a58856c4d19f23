//! Copies of the parts that hold no others of their kind.
ghost use Rattle.std.specs.Prelude.{◌≡◌, IfOk};

use idl_tree::{ArraySize, Dtor, Ident, Label, LabelKind, SizeRef};
use rpc_base::{NoMemory, Octets};
use std::alloc::Global;

/// # Errors
///
/// `NoMemory` where there is no memory for its text.
pub fn ident(name: &Ident, alloc: Global) -> Result<Ident, NoMemory>
    ensures { IfOk result (λ copy. copy ≡ name.now) }
{
    Ok(Ident {
        at: name.at,
        text: name.text.copy(alloc)?,
    })
}

/// # Errors
///
/// `NoMemory` where there is no memory for it.
pub fn ident_or_none(name: &Option<Ident>, alloc: Global) -> Result<Option<Ident>, NoMemory>
    ensures { IfOk result (λ copy. copy ≡ name.now) }
{
    match name {
        None => Ok(None),
        Some(name) => Ok(Some(ident(name, alloc)?)),
    }
}

/// # Errors
///
/// `NoMemory` where there is no memory for it.
pub fn idents(names: &[Ident], alloc: Global) -> Result<Vec<Ident>, NoMemory>
    ensures { IfOk result (λ copy. copy.items ≡ names.now) }
{
    let mut copies = Vec::new(alloc);
    for name in names {
        copies.push(ident(name, alloc)?)?;
    }
    Ok(copies)
}

/// # Errors
///
/// `NoMemory` where there is no memory for it.
pub fn size_ref(size: &SizeRef, alloc: Global) -> Result<SizeRef, NoMemory>
    ensures { IfOk result (λ copy. copy ≡ size.now) }
{
    match size {
        SizeRef::Named { star, name } => Ok(SizeRef::Named {
            star: *star,
            name: ident(name, alloc)?,
        }),
        SizeRef::Number(number) => Ok(SizeRef::Number(*number)),
    }
}

/// # Errors
///
/// `NoMemory` where there is no memory for it.
pub fn array_size(size: &ArraySize, alloc: Global) -> Result<ArraySize, NoMemory>
    ensures { IfOk result (λ copy. copy ≡ size.now) }
{
    match size {
        ArraySize::Empty => Ok(ArraySize::Empty),
        ArraySize::Number(number) => Ok(ArraySize::Number(*number)),
        ArraySize::Named(name) => Ok(ArraySize::Named(ident(name, alloc)?)),
        ArraySize::Star => Ok(ArraySize::Star),
    }
}

/// # Errors
///
/// `NoMemory` where there is no memory for it.
pub fn dtor(dtor: &Dtor, alloc: Global) -> Result<Dtor, NoMemory>
    ensures { IfOk result (λ copy. copy ≡ dtor.now) }
{
    let name = ident(&dtor.name, alloc)?;
    let array = match &dtor.array {
        None => None,
        Some(size) => Some(array_size(size, alloc)?),
    };
    Ok(Dtor {
        stars: dtor.stars,
        name,
        array,
    })
}

/// # Errors
///
/// `NoMemory` where there is no memory for it.
pub fn dtors(list: &[Dtor], alloc: Global) -> Result<Vec<Dtor>, NoMemory>
    ensures { IfOk result (λ copy. copy.items ≡ list.now) }
{
    let mut copies = Vec::new(alloc);
    for item in list {
        copies.push(dtor(item, alloc)?)?;
    }
    Ok(copies)
}

/// # Errors
///
/// `NoMemory` where there is no memory for it.
pub fn label(label: &Label, alloc: Global) -> Result<Label, NoMemory>
    ensures { IfOk result (λ copy. copy ≡ label.now) }
{
    let what = match &label.what {
        LabelKind::Number(number) => LabelKind::Number(*number),
        LabelKind::Named(name) => LabelKind::Named(ident(name, alloc)?),
        LabelKind::Default => LabelKind::Default,
    };
    Ok(Label { at: label.at, what })
}

/// # Errors
///
/// `NoMemory` where there is no memory for it.
pub fn labels(list: &[Label], alloc: Global) -> Result<Vec<Label>, NoMemory>
    ensures { IfOk result (λ copy. copy.items ≡ list.now) }
{
    let mut copies = Vec::new(alloc);
    for item in list {
        copies.push(label(item, alloc)?)?;
    }
    Ok(copies)
}

/// # Errors
///
/// `NoMemory` where there is no memory for it.
pub fn texts(list: &[Octets], alloc: Global) -> Result<Vec<Octets>, NoMemory>
    ensures { IfOk result (λ copy. copy.items ≡ list.now) }
{
    let mut copies = Vec::new(alloc);
    for text in list {
        copies.push(text.copy(alloc)?)?;
    }
    Ok(copies)
}
