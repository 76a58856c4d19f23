//! Files are loaded up to a limit.
ghost use Rattle.std.specs.Prelude.{◌≡◌, ◌+◌, ◌<◌, ◌≤◌, ◌^◌, length, Err, IfOk};
ghost use Rattle.rpc_base.specs.Causes.{Rose};
ghost use Rattle.rpc_base.specs.Shelves.{HasFile};
ghost use Rattle.rpc_app.specs.Runs.{IsLoaded};

use rpc_base::{OutFault, Shelf};
use std::alloc::Global;

/// Why a file isn't loaded.
#[derive(Clone, Copy, Debug, PartialEq, Eq)]
pub enum LoadFault {
    /// The shelf failed.
    Failed,
    /// The file is longer than the limit.
    TooLong,
    /// There is no memory.
    Memory,
}

/// Loads a file of at most this many octets.
///
/// # Errors
///
/// `Failed` where the shelf fails, `TooLong` where the file is longer than that, and `Memory` where
/// there is no memory for it.
pub fn load_file<F: Shelf>(
    alloc: Global,
    shelf: &mut F,
    name: &str,
    most: usize,
) -> Result<Vec<u8>, LoadFault>
    requires { most + 1 < 2 ^ 64 }
    ensures loaded { IfOk result (λ octets. IsLoaded most (F.files shelf.old) name.now octets.items) }
    ensures long { result ≡ Err LoadFault.TooLong → HasFile (F.files shelf.old) name.now (λ file. most < length file) }
    ensures same { F.files shelf.new ≡ F.files shelf.old }
    ensures later { F.faults shelf.old ≤ F.faults shelf.new }
    ensures failed { result ≡ Err LoadFault.Failed → Rose (F.faults shelf.old) (F.faults shelf.new) }
{
    match shelf.load(alloc, name, most + 1) {
        Err(OutFault::Failed) => Err(LoadFault::Failed),
        Err(OutFault::Memory) => Err(LoadFault::Memory),
        Ok(octets) => {
            if octets.len() > most {
                Err(LoadFault::TooLong)
            } else {
                Ok(octets)
            }
        }
    }
}
