//! Names.
ghost use Rattle.std.specs.Prelude.{◌≡◌, IfOk, bytes_eq};

use idl_tree::Ident;
use rpc_base::NoMemory;
use std::alloc::Global;

/// A copy of the name, with its octet.
///
/// # Errors
///
/// `NoMemory` where there is no memory for its text.
pub fn copy_name(alloc: Global, name: &Ident) -> Result<Ident, NoMemory>
    ensures { IfOk result (λ copy. copy ≡ name.now) }
{
    let text = name.text.copy(alloc)?;
    Ok(Ident { at: name.at, text })
}

/// Whether the name has that text.
pub fn is_name(name: &Ident, text: &[u8]) -> bool
    ensures { result ≡ bytes_eq name.now.text text.now }
{
    name.text.as_slice() == text
}
