//! A connection joins a group.
ghost use Rattle.std.specs.Prelude.{⊤};

use crate::realm::Realm;
use crate::{BindRefusal, bind};
use replay_world::Member;

impl Realm {
    ghost use Rattle.replay_groups.specs.Holding.{Known, Moves, BindsIn};

    /// Takes a connection into the group of that id, or into a new one where it is 0.
    ///
    /// # Errors
    ///
    /// `Refused` with the reason of a bind_nak where a limit is reached or there is no such group, `Memory` where there is no
    /// memory for the group or its entry.
    pub fn bind(&mut self, asked: u32) -> Result<Member, BindRefusal>
        requires { Known self.old (λ w. ⊤) }
        ensures { Moves self.old (BindsIn asked result) self.new }
    {
        bind(&mut self.groups, asked)
    }
}
