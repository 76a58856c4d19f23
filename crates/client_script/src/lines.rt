//! The lines of a script, each played over the links of a dial.
ghost use Rattle.std.specs.Prelude.{◌≡◌, ◌≢◌, ◌<◌, true, false, length, Ok, Some, MatchOption};
ghost use Rattle.ndr_table.specs.Shown.{shown};
ghost use Rattle.client_core.specs.States.{is_calling};
ghost use Rattle.client_core.specs.State.{state};
ghost use Rattle.client_link.specs.Wires.{IsOpen};
ghost use Rattle.client_script.specs.declared.line.CallLine.TheVariants as lines;
ghost use Rattle.client_script.specs.Shows.{HasWorld, IsThere, IsNowhere, IsIndex};
ghost use Rattle.client_script.specs.Channels.{MayStartOn, StartsOn, CancelsOn, WaitsOn, ClosesOn, IsWaited};
ghost use Rattle.client_script.specs.Players.{HasAt, Touches, Answered, Begun, Unbegun, StopsBy, LosesAt, AsksOf, AsksNone, IsCalling, IsIdle};
ghost use Rattle.client_script.specs.Plays.{DialsNew, Adds, PlaysLine, PlaysAnywhere, BindsTo};

use crate::CallLine;
use crate::channel::{Channel, Halt};
use crate::player::{Player, Stop};
use client_link::Told;
use ndr_table::Table;
use ndr_value::Message;
use rpc_base::OutFault;
use rpc_outside::{Address, Dial, Link};

/// A link of the dial to the address.
fn dialled<Q: Dial>(dial: &mut Q, at: Address) -> Result<Q::Link, Stop>
    ensures { DialsNew Q.Link.shows at (Q.shows dial.old) result (Q.shows dial.new) }
{
    match dial.dial(at) {
        Ok(link) => Ok(link),
        Err(OutFault::Failed) => Err(Stop::Dial),
        Err(OutFault::Memory) => Err(Stop::Memory),
    }
}

impl<K: Link> Player<K> {
    /// Why a script doesn't go on where something on the connection at that place comes to nothing. That it is lost is told.
    fn stopped(&mut self, name: u32, at: usize, halt: Halt) -> Stop
        requires place { at < length self.old.channels.items }
        requires short { halt ≢ Halt.TooLong }
        ensures { StopsBy self.old name at halt result self.new }
    {
        match halt {
            Halt::Lost => self.lose(name, at),
            Halt::TooLong => unreachable!(),
            Halt::Memory => Stop::Memory,
        }
    }

    /// The connection at that place is lost.
    fn lose(&mut self, name: u32, at: usize) -> Stop
        requires { at < length self.old.channels.items }
        ensures { LosesAt self.old name at result self.new }
    {
        let called = self.channels[at].wire.client.is_calling();
        match self.tell_lost(name, called) {
            Ok(()) => Stop::Lost,
            Err(_) => Stop::Memory,
        }
    }

    /// What came of the wait for an outcome on the connection at that place is told.
    fn answered(&mut self, name: u32, at: usize, answer: Result<Told, Halt>) -> Result<(), Stop>
        requires place { at < length self.old.channels.items }
        requires waited { IsWaited answer }
        ensures { Answered self.old name at answer result self.new }
    {
        match answer {
            Ok(told) => {
                self.tell(name, &told)?;
                Ok(())
            }
            Err(halt) => Err(self.stopped(name, at, halt)),
        }
    }

    /// What came of the beginning of something on the connection at that place.
    fn begun(&mut self, name: u32, at: usize, begun: Result<(), Halt>) -> Result<bool, Stop>
        requires { at < length self.old.channels.items }
        ensures { Begun self.old name at begun result self.new }
    {
        match begun {
            Ok(()) => Ok(true),
            Err(halt) => self.unbegun(name, at, halt),
        }
    }

    /// Nothing is begun, or what is begun comes to nothing.
    fn unbegun(&mut self, name: u32, at: usize, halt: Halt) -> Result<bool, Stop>
        requires { at < length self.old.channels.items }
        ensures { Unbegun self.old name at halt result self.new }
    {
        match halt {
            Halt::TooLong => Ok(false),
            _ => Err(self.stopped(name, at, halt)),
        }
    }

    /// The group that a bind asks for: None where the connection isn't bound whose group that is.
    fn asked(&self, group: Option<u32>) -> Option<u32>
        requires { IsIndex self.now.places self.now.channels.items }
        ensures { MatchOption result (AsksNone self.now group) (AsksOf self.now group) }
    {
        match group {
            None => Some(0),
            Some(other) => self.group_of(other),
        }
    }

    /// The group that the connection of that name is bound to.
    fn group_of(&self, name: u32) -> Option<u32>
        requires { IsIndex self.now.places self.now.channels.items }
        ensures { MatchOption result (IsNowhere name self.now.channels.items) (AsksOf self.now (Some name)) }
    {
        let at = self.find(name)?;
        Some(self.channels[at].group)
    }

    /// A new connection.
    fn open<Q: Dial<Link = K>>(
        &mut self,
        table: &Table,
        dial: &mut Q,
        at: Address,
        name: u32,
    ) -> Result<Channel<K>, Stop>
        ensures { Adds K.shows (shown table.now) at name self.old (Q.shows dial.old) result self.new (Q.shows dial.new) }
    {
        let table = table.copy(self.alloc)?;
        if self.channels.reserve(1).is_err() {
            return Err(Stop::Memory);
        }
        let place = self.channels.len();
        if self.places.insert(name, place).is_err() {
            return Err(Stop::Memory);
        }
        let link = dialled(dial, at)?;
        Ok(Channel::new(self.alloc, name, link, table))
    }

    /// A new connection binds, where none of that name is bound.
    fn bind<Q: Dial<Link = K>>(
        &mut self,
        table: &Table,
        dial: &mut Q,
        at: Address,
        name: u32,
        group: Option<u32>,
    ) -> Result<bool, Stop>
        requires { HasWorld K.shows self.old }
        ensures { PlaysLine K.shows (shown table.now) at (lines.Bind name group) self.old (Q.shows dial.old) result self.new (Q.shows dial.new) }
    {
        match self.find(name) {
            Some(_) => Ok(false),
            None => self.bind_new(table, dial, at, name, group),
        }
    }

    /// The same, where none of that name is bound.
    fn bind_new<Q: Dial<Link = K>>(
        &mut self,
        table: &Table,
        dial: &mut Q,
        at: Address,
        name: u32,
        group: Option<u32>,
    ) -> Result<bool, Stop>
        requires world { HasWorld K.shows self.old }
        requires nowhere { IsNowhere name self.old.channels.items }
        ensures { PlaysLine K.shows (shown table.now) at (lines.Bind name group) self.old (Q.shows dial.old) result self.new (Q.shows dial.new) }
    {
        match self.asked(group) {
            Some(asked) => self.bind_to(table, dial, at, name, asked),
            None => Ok(false),
        }
    }

    /// A new connection binds to the group of that id, 0 for a new one.
    fn bind_to<Q: Dial<Link = K>>(
        &mut self,
        table: &Table,
        dial: &mut Q,
        at: Address,
        name: u32,
        asked: u32,
    ) -> Result<bool, Stop>
        requires { IsNowhere name self.old.channels.items }
        ensures { BindsTo K.shows (shown table.now) at name asked self.old (Q.shows dial.old) result self.new (Q.shows dial.new) }
    {
        let mut channel = self.open(table, dial, at, name)?;
        let answer = channel.bind(asked);
        let place = self.channels.as_slice().len();
        self.channels.push_reserved(channel);
        self.answered(name, place, answer)?;
        Ok(true)
    }

    fn start_at(&mut self, at: usize, op: u16, message: &Message) -> Result<(), Halt>
        requires { HasAt self.old at (MayStartOn K.shows op message.now) }
        ensures { Touches self.old at (λ c d. StartsOn K.shows c op message.now result d) self.new }
    {
        self.channels[at].start(op, message)
    }

    fn cancel_at(&mut self, at: usize) -> Result<(), Halt>
        requires { HasAt self.old at (λ c. IsOpen K.shows c.wire.link × (is_calling (state c.wire.client) ≡ true)) }
        ensures { Touches self.old at (λ c d. CancelsOn K.shows c result d) self.new }
    {
        self.channels[at].cancel()
    }

    fn wait_at(&mut self, at: usize) -> Result<Told, Halt>
        requires { HasAt self.old at (λ c. IsOpen K.shows c.wire.link) }
        ensures touches { Touches self.old at (λ c d. WaitsOn K.shows c result d) self.new }
        ensures waited { IsWaited result }
    {
        self.channels[at].wait()
    }

    fn close_at(&mut self, at: usize)
        requires { HasAt self.old at (λ c. IsOpen K.shows c.wire.link) }
        ensures { Touches self.old at (λ c d. ClosesOn K.shows c d) self.new }
    {
        self.channels[at].close();
    }

    /// A call begins, where the connection of that name is bound and has none out, and the text is one of its operation.
    fn start(&mut self, name: u32, op: &[u8], text: &[u8]) -> Result<bool, Stop>
        requires { HasWorld K.shows self.old }
        ensures { PlaysAnywhere K.shows (lines.Start name op.now text.now) self.old result self.new }
    {
        let Some(at) = self.find(name) else {
            return Ok(false);
        };
        self.start_there(name, at, op, text)
    }

    fn start_there(&mut self, name: u32, at: usize, op: &[u8], text: &[u8]) -> Result<bool, Stop>
        requires world { HasWorld K.shows self.old }
        requires there { IsThere name self.old.channels.items at }
        ensures { PlaysAnywhere K.shows (lines.Start name op.now text.now) self.old result self.new }
    {
        let Some((number, message)) = self.message(at, op, text)? else {
            return Ok(false);
        };
        let begun = self.start_at(at, number, &message);
        self.begun(name, at, begun)
    }

    /// The place of the connection that is bound by that name and has a call out.
    fn calling(&self, name: u32) -> Option<usize>
        requires { IsIndex self.now.places self.now.channels.items }
        ensures { MatchOption result (IsIdle self.now name) (IsCalling self.now name) }
    {
        let at = self.find(name)?;
        if self.channels[at].wire.client.is_calling() {
            Some(at)
        } else {
            None
        }
    }

    /// The call of the connection of that name is asked to end.
    fn cancel(&mut self, name: u32) -> Result<bool, Stop>
        requires { HasWorld K.shows self.old }
        ensures { PlaysAnywhere K.shows (lines.Cancel name) self.old result self.new }
    {
        let Some(at) = self.calling(name) else {
            return Ok(false);
        };
        let begun = self.cancel_at(at);
        self.begun(name, at, begun)
    }

    /// The outcome of the call of the connection of that name is waited for.
    fn wait(&mut self, name: u32) -> Result<bool, Stop>
        requires { HasWorld K.shows self.old }
        ensures { PlaysAnywhere K.shows (lines.Wait name) self.old result self.new }
    {
        let Some(at) = self.calling(name) else {
            return Ok(false);
        };
        let answer = self.wait_at(at);
        self.answered(name, at, answer)?;
        Ok(true)
    }

    /// The connection of that name is closed.
    fn close(&mut self, name: u32) -> bool
        requires { HasWorld K.shows self.old }
        ensures { PlaysAnywhere K.shows (lines.Close name) self.old (Ok result) self.new }
    {
        let Some(at) = self.find(name) else {
            return false;
        };
        self.close_at(at);
        true
    }
}

/// Plays a line, where it may come now.
///
/// # Errors
///
/// `Lost` where a connection is lost; `Dial` where the dial failed; `Memory` where memory ran out.
pub fn play_line<Q: Dial>(
    player: &mut Player<Q::Link>,
    table: &Table,
    dial: &mut Q,
    at: Address,
    line: &CallLine,
) -> Result<bool, Stop>
    requires { HasWorld Q.Link.shows player.old }
    ensures { PlaysLine Q.Link.shows (shown table.now) at line.now player.old (Q.shows dial.old) result player.new (Q.shows dial.new) }
{
    match line {
        CallLine::Bind(name, group) => player.bind(table, dial, at, *name, *group),
        CallLine::Start(name, op, text) => player.start(*name, op.as_slice(), text.as_slice()),
        CallLine::Cancel(name) => player.cancel(*name),
        CallLine::Wait(name) => player.wait(*name),
        CallLine::Close(name) => Ok(player.close(*name)),
    }
}
