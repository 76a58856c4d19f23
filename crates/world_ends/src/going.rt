//! Acts of a connection and words of the server, until nothing is to be done for now.
ghost use Rattle.std.specs.Prelude.{IfOk, OnOk};
ghost use Rattle.world_server.specs.Servers.{seen, IsWhole};
ghost use Rattle.world_ends.specs.Servings.{Rests, Steps};

use crate::Serving;
use rpc_base::NoMemory;
use world_server::Server;

impl Serving {
    /// Does all that the octets ask for that came, up to a call that has to wait.
    ///
    /// # Errors
    ///
    /// `NoMemory` where there is no memory for it.
    pub fn go_on(&mut self, server: &mut Server) -> Result<(), NoMemory>
        requires { IsWhole (seen server.old) }
        ensures { OnOk result (Rests (seen server.old) self.old (seen server.new) self.new) }
    {
        for _ in 0..u64::MAX {
            let goes = self.step(server)?;
            if !goes {
                return Ok(());
            }
        }
        Err(NoMemory)
    }

    /// The next word or act, if there is one.
    fn step(&mut self, server: &mut Server) -> Result<bool, NoMemory>
        requires { IsWhole (seen server.old) }
        ensures { IfOk result (λ goes. Steps goes (seen server.old) self.old (seen server.new) self.new) }
    {
        if self.is_due(server) {
            self.word(server)?;
            return Ok(true);
        }
        let next = self.next()?;
        match next {
            Some(act) => {
                self.act(server, act)?;
                Ok(true)
            }
            None => Ok(false),
        }
    }
}
