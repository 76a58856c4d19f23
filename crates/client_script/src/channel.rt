//! A connection of a script, over its link.
ghost use Rattle.std.specs.Prelude.{◌≡◌, ◌≢◌, ◌==◌, ◌&&◌, true, false, IfErr};
ghost use Rattle.rpc_outside.specs.Links.{IsNew};
ghost use Rattle.ndr_value.specs.Values.{msg};
ghost use Rattle.ndr_table.specs.Shown.{shown};
ghost use Rattle.client_core.specs.Calls.{IsMessage};
ghost use Rattle.client_core.specs.States.{is_bound, is_calling};
ghost use Rattle.client_core.specs.States as states;
ghost use Rattle.client_core.specs.Histories.ClientEvent.{DidBind};
ghost use Rattle.client_core.specs.State.{state};
ghost use Rattle.client_link.specs.Wires.{IsOpen};
ghost use Rattle.client_script.specs.Worlds.{fresh};
ghost use Rattle.client_script.specs.Shows.{Holds};
ghost use Rattle.client_script.specs.Steps as spec;
ghost use Rattle.client_script.specs.Channels.{BeginsOn, StartsOn, CancelsOn, WaitsOn, BindsOn, ClosesOn, FromEach, Halts, Silences, IsWaited, IsTellable};

use client_link::{BeginFault, Stop as Deaf, Told, Wire};
use ndr_table::Table;
use ndr_value::Message;
use rpc_outside::Link;
use std::alloc::Global;

/// Why something on a connection comes to nothing.
#[derive(Clone, Copy, Debug, PartialEq, Eq)]
pub enum Halt {
    /// The connection is lost: its link failed or ended, it was quiet for too long, or its peer broke the protocol.
    Lost,
    /// The message has more octets than the stub of a call may have.
    TooLong,
    /// Memory ran out.
    Memory,
}

/// A connection of a script, by its name.
#[derive(Drop)]
pub struct Channel<K: Link> {
    pub name: u32,
    /// It was neither closed nor lost.
    pub is_open: bool,
    /// The group that its server told.
    pub group: u32,
    pub wire: Wire<K>,
}

impl<K: Link> Channel<K> {
    /// A connection on a new link. It takes no memory.
    pub fn new(alloc: Global, name: u32, link: K, table: Table) -> Channel<K>
        requires { IsNew (K.shows link) }
        ensures holds { Holds K.shows (shown table) result (fresh (shown table) name) }
        ensures link { IsOpen K.shows result.wire.link }
    {
        Channel {
            name,
            is_open: true,
            group: 0,
            wire: Wire::new(alloc, link, table),
        }
    }

    /// Whether it is bound by that name.
    pub fn is_bound_as(&self, name: u32) -> bool
        ensures { result ≡ (((self.now.name == name) && self.now.is_open) && is_bound (state self.now.wire.client)) }
    {
        self.name == name && self.is_open && self.wire.client.is_bound()
    }

    /// What follows on a fault: the connection is lost where its link failed.
    fn halt(&mut self, fault: BeginFault) -> Halt
        ensures { Halts self.old fault result self.new }
    {
        match fault {
            BeginFault::Failed => {
                self.is_open = false;
                Halt::Lost
            }
            BeginFault::TooLong => Halt::TooLong,
            BeginFault::Memory => Halt::Memory,
        }
    }

    /// Begins to bind it to the group of that id, 0 for a new one.
    fn begin_bind(&mut self, group: u32) -> Result<(), Halt>
        requires open { IsOpen K.shows self.old.wire.link }
        requires free { is_bound (state self.old.wire.client) ≡ false }
        ensures begins { FromEach K.shows self.old (λ interface a. BeginsOn K.shows self.old interface a (DidBind group) ⊥ result self.new) }
        ensures open { IsOpen K.shows self.new.wire.link }
        ensures short { IfErr result (λ halt. halt ≢ Halt.TooLong) }
        ensures name { self.new.name ≡ self.old.name }
    {
        match self.wire.bind(group) {
            Ok(()) => Ok(()),
            Err(fault) => Err(self.halt(fault)),
        }
    }

    /// Binds it to the group of that id, 0 for a new one, and waits for the answer.
    ///
    /// # Errors
    ///
    /// `Halt::Lost` where the connection is lost, and `Halt::Memory` where memory runs out.
    pub fn bind(&mut self, group: u32) -> Result<Told, Halt>
        requires open { IsOpen K.shows self.old.wire.link }
        requires free { is_bound (state self.old.wire.client) ≡ false }
        ensures binds { FromEach K.shows self.old (λ interface a. BindsOn K.shows interface a group result self.new) }
        ensures waited { IsWaited result }
        ensures name { self.new.name ≡ self.old.name }
    {
        self.begin_bind(group)?;
        let told = self.wait()?;
        self.group = group_of(&told);
        Ok(told)
    }

    /// Begins a call.
    ///
    /// # Errors
    ///
    /// `Halt::TooLong` where the stub would pass the most octets of a stub, `Halt::Lost` where the
    /// link fails, and `Halt::Memory` where memory runs out.
    pub fn start(&mut self, op: u16, message: &Message) -> Result<(), Halt>
        requires open { IsOpen K.shows self.old.wire.link }
        requires bound { is_bound (state self.old.wire.client) ≡ true }
        requires free { is_calling (state self.old.wire.client) ≡ false }
        requires message { IsMessage (state self.old.wire.client).interface op (msg message.now) }
        ensures name { self.new.name ≡ self.old.name }
        ensures begins { StartsOn K.shows self.old op message.now result self.new }
    {
        match self.wire.call(op, message) {
            Ok(()) => Ok(()),
            Err(fault) => Err(self.halt(fault)),
        }
    }

    /// Asks for the cancelling of the call that is out.
    ///
    /// # Errors
    ///
    /// `Halt::Lost` where the link fails, and `Halt::Memory` where memory runs out.
    pub fn cancel(&mut self) -> Result<(), Halt>
        requires open { IsOpen K.shows self.old.wire.link }
        requires calling { is_calling (state self.old.wire.client) ≡ true }
        ensures name { self.new.name ≡ self.old.name }
        ensures begins { CancelsOn K.shows self.old result self.new }
    {
        match self.wire.cancel() {
            Ok(()) => Ok(()),
            Err(fault) => Err(self.halt(fault)),
        }
    }

    /// It is lost, unless memory ran out.
    fn lose(&mut self, why: Deaf) -> Halt
        ensures { Silences self.old why result self.new }
    {
        match why {
            Deaf::Memory => Halt::Memory,
            _ => {
                self.is_open = false;
                Halt::Lost
            }
        }
    }

    /// Waits for the outcome of what is out.
    ///
    /// # Errors
    ///
    /// `Halt::Lost` where the link fails or ends, was quiet for too long, or its peer breaks the
    /// protocol, and `Halt::Memory` where memory runs out.
    pub fn wait(&mut self) -> Result<Told, Halt>
        requires { IsOpen K.shows self.old.wire.link }
        ensures hears { WaitsOn K.shows self.old result self.new }
        ensures waited { IsWaited result }
        ensures name { self.new.name ≡ self.old.name }
    {
        match self.wire.wait() {
            Ok(Told::Broken(_)) => {
                self.is_open = false;
                Err(Halt::Lost)
            }
            Ok(told) => Ok(told),
            Err(why) => Err(self.lose(why)),
        }
    }

    /// Closes it, and its link.
    pub fn close(&mut self)
        requires { IsOpen K.shows self.old.wire.link }
        ensures closes { ClosesOn K.shows self.old self.new }
        ensures name { self.new.name ≡ self.old.name }
    {
        self.is_open = false;
        self.wire.link.close();
    }
}

impl<K: Link> Channel<K> {
    /// Its link.
    pub fn into_link(self) -> K
        ensures { result ≡ self.wire.link }
    {
        let Channel { wire, .. } = self;
        let Wire { link, .. } = wire;
        link
    }
}

/// The group that an outcome tells.
fn group_of(told: &Told) -> u32
    ensures { result ≡ spec.group_of (states.told told.now) }
{
    match told {
        Told::Bound(group) => *group,
        _ => 0,
    }
}
