//! What gives up the state behind handles whose groups have ended.
use desk_told::ToldDesk;
use echo_manager::ProbeDesk;
use epm_manager::EpmDesk;
use ndr_table::Table;
use store_manager::StoreDesk;

/// The service that kept something behind the handles of a kind (C706, "Interface Definition Language", context rundown).
#[derive(Clone, Copy)]
pub enum Keeper<'a> {
    Probe(&'a ToldDesk<ProbeDesk>),
    Store(&'a ToldDesk<StoreDesk>),
    Endpoints(&'a ToldDesk<EpmDesk>),
    /// Management, which keeps nothing.
    Management,
    /// The echo of that interface, which keeps nothing.
    Echo(&'a Table),
}
