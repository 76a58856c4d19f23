//! The interface's own attributes.
ghost use Rattle.std.specs.Prelude.{◌≡◌, map, IfOk};
ghost use Rattle.idl_forms.specs.Forms.{file_kind_form, file_form};
ghost use Rattle.marshal_table.specs.Interfaces as spec;

use crate::numbers::in_16;
use idl_tree::{FileAttr, FileAttrKind, Num};
use rpc_base::{NoMemory, SyntaxId};
use uuid::Uuid;

fn uuid_in(kind: &FileAttrKind) -> Option<Uuid>
    ensures { result ≡ spec.uuid_in (file_kind_form kind.now) }
{
    match kind {
        FileAttrKind::Uuid(id) => Some(*id),
        _ => None,
    }
}

fn minor_of(minor: Option<Num>) -> Result<u16, NoMemory>
    ensures { IfOk result (λ n. n ≡ spec.minor_of minor) }
{
    match minor {
        None => Ok(0),
        Some(number) => in_16(number.value),
    }
}

fn version_in(kind: &FileAttrKind) -> Result<Option<(u16, u16)>, NoMemory>
    ensures { IfOk result (λ v. v ≡ spec.version_in (file_kind_form kind.now)) }
{
    match kind {
        FileAttrKind::Version(major, minor) => {
            let version = (in_16(major.value)?, minor_of(*minor)?);
            Ok(Some(version))
        }
        _ => Ok(None),
    }
}

fn first_uuid(attrs: &[FileAttr]) -> Option<Uuid>
    ensures { result ≡ spec.first_in spec.uuid_in (map file_form attrs.now) }
{
    for attr in attrs {
        let found = uuid_in(&attr.what);
        if found.is_some() {
            return found;
        }
    }
    None
}

fn first_version(attrs: &[FileAttr]) -> Result<Option<(u16, u16)>, NoMemory>
    ensures { IfOk result (λ v. v ≡ spec.first_in spec.version_in (map file_form attrs.now)) }
{
    for attr in attrs {
        let found = version_in(&attr.what)?;
        if found.is_some() {
            return Ok(found);
        }
    }
    Ok(None)
}

/// The interface's identifier and version; 0.0 where no version is given.
///
/// # Errors
///
/// `NoMemory` where there is no identifier, or a number of the version has no room in 16 bits: no
/// interface that keeps the rules is so.
pub fn syntax_of(attrs: &[FileAttr]) -> Result<SyntaxId, NoMemory>
    ensures { IfOk result (λ id. id ≡ spec.syntax_of (map file_form attrs.now)) }
{
    let Some(id) = first_uuid(attrs) else {
        return Err(NoMemory);
    };
    let (major, minor) = match first_version(attrs)? {
        Some(version) => version,
        None => (0, 0),
    };
    Ok(SyntaxId { id, major, minor })
}
