//! Files.

use rpc_base::Octets;

/// A file of the store.
#[derive(Debug, Drop)]
pub struct File {
    pub name: Octets,
    pub octets: Octets,
}
