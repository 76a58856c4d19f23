//! What a thread has of the services.
use desk_told::DeskPass;
use echo_manager::ProbeDesk;
use epm_manager::EpmDesk;
use store_manager::StoreDesk;

/// A thread's part in the services that keep something: a pass of each one's history. It has no octets.
#[derive(Drop)]
pub struct SharedPass {
    pub(crate) probe: DeskPass<ProbeDesk>,
    pub(crate) store: DeskPass<StoreDesk>,
    pub(crate) endpoints: DeskPass<EpmDesk>,
}
