//! Uses of handles.
ghost use Rattle.std.specs.Prelude.{◌≡◌, ◌∷◌, [], IfOk};
ghost use Rattle.desk_kit.specs.TableParts as spec;

use ndr_table::{HandleUse, HandleUses};
use rpc_base::NoMemory;
use std::alloc::Global;

/// A use of a handle of a type of that number.
pub fn used(kind: u16, inward: bool, outward: bool, serialised: bool) -> HandleUse
    ensures { result ≡ spec.used kind inward outward serialised }
{
    HandleUse {
        kind,
        inward,
        outward,
        serialised,
    }
}

/// The uses of an operation that has one.
///
/// # Errors
///
/// `NoMemory` where there is no memory for them.
pub fn one_use(alloc: Global, handle: HandleUse) -> Result<HandleUses, NoMemory>
    ensures { IfOk result (λ uses. uses ≡ handle ∷ []) }
{
    let mut uses = HandleUses::new(alloc);
    uses.push(handle)?;
    Ok(uses)
}
