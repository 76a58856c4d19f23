//! What a connection hears.
ghost use Rattle.std.specs.Prelude.{◌≡◌, ◌≢◌, ◌⊎◌, ℕ, List, [], IfOk};
ghost use Rattle.rpc_outside.specs.Links.{Counts};
ghost use Rattle.pdu_stream.specs.Cuts.{IsPartial};
ghost use Rattle.ndr_table.specs.Tables.{TableForm};
ghost use Rattle.client_core.specs.States.{ClientState, told};
ghost use Rattle.client_core.specs.Histories.{ClientEvent};
ghost use Rattle.client_link.specs.Wires.{IsOpen, Stays, Lived, Looks, Waits, IsQuieter, MayBeTold, LooksRightly};

use crate::wire::Wire;
use client_core::Told;
use pdu_codec::{Pdu, PduFault};
use rpc_base::Failed;
use rpc_outside::{Link, Taken};

/// Why nothing more is heard.
#[derive(Clone, Copy, Debug, PartialEq, Eq)]
pub enum Stop {
    /// The link failed.
    Failed,
    /// The server ended.
    Ended,
    /// The server was quiet for as many looks at the link as are made in one wait.
    Quiet,
    /// The octets that came are no PDU's.
    Cut,
    /// Memory ran out.
    Memory,
}

/// What came of a look.
#[derive(Drop)]
enum Look {
    /// A PDU told this.
    Outcome(Told),
    /// A PDU told nothing, or octets came.
    Nothing,
    /// Nothing came yet.
    Quiet,
}

/// The most octets that are taken at once.
const MOST: usize = 4096;

/// How many quiets of the link end a wait.
const MOST_QUIETS: u32 = 6000;

/// Why nothing more is heard after a fault of the octets.
fn stop_of(fault: PduFault) -> Stop
    ensures { ((result ≡ Stop.Memory) × (fault ≡ PduFault.Memory)) ⊎ ((result ≡ Stop.Cut) × (fault ≢ PduFault.Memory)) }
{
    match fault {
        PduFault::Memory => Stop::Memory,
        _ => Stop::Cut,
    }
}

impl<K: Link> Wire<K> {
    /// Takes octets, where there are any. At want of memory they are lost.
    fn take(&mut self) -> Result<Look, Stop>
        requires open { IsOpen K.shows self.old.link }
        requires partial { IsPartial self.old.feed.rest }
        ensures stays { Stays self.old self.new }
        ensures open { IsOpen K.shows self.new.link }
        ensures counts { Counts (K.shows self.old.link) (K.shows self.new.link) }
        ensures quieter { IfOk result (IsQuieter (K.shows self.old.link).quiets (K.shows self.new.link).quiets) }
        ensures looks { (interface : TableForm) (events : List ClientEvent) (m : ClientState) → Lived K.shows interface self.old events m []
            → Looks K.shows interface events m self.old result self.new }
        ensures answer { IfOk result LooksRightly }
    {
        let mut octets = [0; MOST];
        match self.link.take(&mut octets) {
            Ok(Taken::Bytes(count)) => match self.feed.push(&octets[..count]) {
                Ok(()) => Ok(Look::Nothing),
                Err(_) => Err(Stop::Memory),
            },
            Ok(Taken::Quiet) => Ok(Look::Quiet),
            Ok(Taken::End) => Err(Stop::Ended),
            Err(Failed) => Err(Stop::Failed),
        }
    }

    /// The next PDU of what came is heard; or a look at the link is taken, where there is none.
    fn look(&mut self) -> Result<Look, Stop>
        requires open { IsOpen K.shows self.old.link }
        ensures stays { Stays self.old self.new }
        ensures open { IsOpen K.shows self.new.link }
        ensures counts { Counts (K.shows self.old.link) (K.shows self.new.link) }
        ensures quieter { IfOk result (IsQuieter (K.shows self.old.link).quiets (K.shows self.new.link).quiets) }
        ensures looks { (interface : TableForm) (events : List ClientEvent) (m : ClientState) → Lived K.shows interface self.old events m []
            → Looks K.shows interface events m self.old result self.new }
        ensures answer { IfOk result LooksRightly }
    {
        match self.feed.next() {
            Ok(Some(pdu)) => match self.client.on_pdu(pdu) {
                Ok(Some(told)) => Ok(Look::Outcome(told)),
                Ok(None) => Ok(Look::Nothing),
                Err(_) => Err(Stop::Memory),
            },
            Ok(None) => self.take(),
            Err(fault) => Err(stop_of(fault)),
        }
    }

    /// Waits for the outcome of what is out: hears PDUs, up to the first that tells something.
    ///
    /// # Errors
    ///
    /// `Failed` where the link failed, `Ended` where it ended, `Quiet` where it was quiet 6,000 times, `Cut` where its octets are
    /// no PDU's; or want of memory, after which nothing more is heard rightly.
    pub fn wait(&mut self) -> Result<Told, Stop>
        requires open { IsOpen K.shows self.old.link }
        ensures stays { Stays self.old self.new }
        ensures open { IsOpen K.shows self.new.link }
        ensures waits { (interface : TableForm) (events : List ClientEvent) (m : ClientState) → Lived K.shows interface self.old events m []
            → Waits K.shows interface events m self.old result self.new }
        ensures answer { IfOk result (λ t. MayBeTold (told t)) }
    {
        let mut quiets = 0;
        for _ in 0..u64::MAX {
            match self.look()? {
                Look::Outcome(told) => return Ok(told),
                Look::Nothing => {}
                Look::Quiet => {
                    quiets += 1;
                    if quiets == MOST_QUIETS {
                        return Err(Stop::Quiet);
                    }
                }
            }
        }
        Err(Stop::Memory)
    }
}
