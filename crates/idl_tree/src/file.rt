//! The attributes of an interface.

use crate::leaf::{Num, Pk};
use rpc_base::Octets;
use uuid::Uuid;

/// An attribute of an interface.
#[derive(Debug, Drop)]
pub struct FileAttr {
    /// The octet where it begins.
    pub at: usize,
    pub what: FileAttrKind,
}

/// The kinds of attribute of an interface.
#[derive(Debug, Drop)]
pub enum FileAttrKind {
    Uuid(Uuid),
    /// The major and the minor number.
    Version(Num, Option<Num>),
    PointerDefault(Pk),
    /// The texts between the quotes.
    Endpoint(Vec<Octets>),
}
