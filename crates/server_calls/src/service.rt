//! What serves connections.
ghost use Rattle.std.specs.Prelude.{◌≡◌};
ghost use Rattle.manager_api.specs.Served.{tables_in};

use crate::manager::Manager;
use manager_api::Served;
use std::alloc::Global;

/// A manager with the tables of its interfaces, as connections are served with them.
pub trait Service: Manager {
    /// The tables, by number.
    fn served(&self) -> &Served
        ensures { Self.tables self.now ≡ tables_in result.now };

    /// Whose memory connections take.
    fn alloc(&self) -> Global;
}
