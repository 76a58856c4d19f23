//! Doors, where others call.
ghost use Rattle.rpc_outside.specs.Doors.{DoorShown, DoorSame, Listens, Nexts, HasOut, Backs};

use crate::address::Address;
use crate::link::Link;
use rpc_base::OutFault;

/// A door hands out the links of those who call at its address.
pub trait Door {
    type Link: Link;

    /// Its counts, and what it tells.
    ghost shows: { Self → DoorShown Self.Link };

    /// Listens at an address, and at no other.
    ///
    /// # Errors
    ///
    /// `Failed` where the door failed, which it counts; `Memory` where there is no memory for it.
    fn listen(&mut self, at: Address) -> Result<(), OutFault>
        ensures { Listens (shows self.old) at result (shows self.new) };

    /// The next link, which is new. There is none where the door closed, which it counts.
    ///
    /// # Errors
    ///
    /// `Failed` where the door failed, which it counts; `Memory` where there is no memory for the link.
    fn next(&mut self) -> Result<Option<Self::Link>, OutFault>
        ensures { Nexts Self.Link.shows (shows self.old) result (shows self.new) };

    /// Takes back a link that it handed out. It can't be refused, and takes no memory.
    fn back(&mut self, link: Self::Link)
        requires { HasOut (shows self.old).out }
        ensures { Backs (shows self.old) link (shows self.new) };

    /// Lets nobody else in: no further link is wanted. Those that are out stay as they are.
    fn shut(&mut self)
        ensures { DoorSame (shows self.old) (shows self.new) };
}
