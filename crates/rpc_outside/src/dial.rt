//! Dials, which call others.
ghost use Rattle.rpc_outside.specs.Doors.{HasOut};
ghost use Rattle.rpc_outside.specs.Dials.{DialShown, Dials, DialBacks};

use crate::address::Address;
use crate::link::Link;
use rpc_base::OutFault;

/// A dial opens links to those who listen at an address.
pub trait Dial {
    type Link: Link;

    /// Its count of faults, and what it tells.
    ghost shows: { Self → DialShown Self.Link };

    /// A new link to who listens at the address.
    ///
    /// # Errors
    ///
    /// `Failed` where the dial failed, which it counts; `Memory` where there is no memory for the link.
    fn dial(&mut self, at: Address) -> Result<Self::Link, OutFault>
        ensures { Dials Self.Link.shows (shows self.old) at result (shows self.new) };

    /// Takes back a link that it opened. It can't be refused, and takes no memory.
    fn back(&mut self, link: Self::Link)
        requires { HasOut (shows self.old).out }
        ensures { DialBacks (shows self.old) link (shows self.new) };
}
