//! What a script has led to.
ghost use Rattle.std.specs.Prelude.{◌≡◌, ◌<◌, ◌++◌, ◌||◌, ℕ, List, [], false, length, slice_get, option_copied, MatchBool, MatchOption, IfOk, OnOk};
ghost use Rattle.ndr_table.specs.Shown.{shown};
ghost use Rattle.ndr_value.specs.Values.{msg};
ghost use Rattle.client_core.specs.States as states;
ghost use Rattle.client_core.specs.State.{state};
ghost use Rattle.client_texts.specs.Answers.{IsLine};
ghost use Rattle.client_script.specs.Steps as spec;
ghost use Rattle.client_script.specs.Steps.{HasOp, IsMessageOf, IsNoMessage};
ghost use Rattle.client_script.specs.Shows.{IsThere, IsNowhere, IsIndex};
ghost use Rattle.client_script.specs.Channels.{IsTellable};
ghost use Rattle.client_script.specs.Losses.{lost_text};
ghost use Rattle.client_script.specs.Players.{TellsOutcome, CanStart, BarsAt};

use crate::channel::Channel;
use base_words::put;
use client_core::Client;
use client_link::Told;
use client_texts::{Handles, put_answer, put_lost, read_row};
use ndr_table::Table;
use ndr_value::Message;
use rpc_base::NoMemory;
use rpc_outside::Link;
use std::alloc::Global;
use std::collections::BTreeMap;

/// Why a script doesn't go on.
#[derive(Clone, Copy, Debug, PartialEq, Eq)]
pub enum Stop {
    /// A connection is lost.
    Lost,
    /// The dial failed.
    Dial,
    /// Memory ran out.
    Memory,
}

impl From<NoMemory> for Stop {
    ghost use Rattle.client_script.specs.declared.player.Stop.TheVariants.{Memory};

    ghost from_gives = { λ _ e. e ≡ Memory };

    fn from(_: NoMemory) -> Self {
        Stop::Memory
    }
}

/// The connections of a script, the handles that came, what was printed, and whether a bind was refused or something failed.
#[derive(Drop)]
pub struct Player<K: Link> {
    pub channels: Vec<Channel<K>>,
    /// Where in the list the last connection of a name stands.
    pub places: BTreeMap<u32, usize>,
    pub known: Handles,
    pub out: Vec<u8>,
    pub failed: bool,
    pub alloc: Global,
}

/// The number of the first operation of that name. None where none has it.
fn op_of(table: &Table, name: &[u8]) -> Option<u16>
    ensures { MatchOption result ((op : ℕ) → HasOp (shown table.now) op name.now → ⊥) (λ op. HasOp (shown table.now) op name.now) }
{
    for op in 0..table.op_count() {
        if is_named(table, op, name) {
            return Some(op);
        }
    }
    None
}

/// Whether the operation of that number has that name.
fn is_named(table: &Table, op: u16, name: &[u8]) -> bool
    requires { op < length (shown table.now).ops }
    ensures { MatchBool result (HasOp (shown table.now) op name.now) (HasOp (shown table.now) op name.now → ⊥) }
{
    match table.op(op) {
        Some(form) => form.name.as_slice() == name,
        None => false,
    }
}

/// The message of the operation of that number that a text has, with the names of handles that came. None where it has none.
fn message_of(
    alloc: Global,
    client: &Client,
    known: &Handles,
    op: u16,
    text: &[u8],
) -> Result<Option<Message>, NoMemory>
    ensures { IfOk result (λ found. MatchOption found
        (IsNoMessage (state client.now).interface op known.now text.now)
        (λ m. IsMessageOf (state client.now).interface op known.now text.now (msg m))) }
{
    let table = client.table();
    let Some(form) = table.op(op) else {
        return Ok(None);
    };
    let Some(message) = read_row(alloc, table.types(), &form.params, known, text)? else {
        return Ok(None);
    };
    if client.takes(op, &message)? {
        Ok(Some(message))
    } else {
        Ok(None)
    }
}

fn channel_at<K: Link>(channels: &[Channel<K>], at: usize) -> Option<&Channel<K>>
    ensures { option_copied result ≡ slice_get channels.now at }
{
    channels.get(at)
}

/// The place of the connection that is bound by that name.
fn place_of<K: Link>(
    places: &BTreeMap<u32, usize>,
    channels: &[Channel<K>],
    name: u32,
) -> Option<usize>
    requires { IsIndex places.now channels.now }
    ensures { MatchOption result (IsNowhere name channels.now) (λ at. IsThere name channels.now at) }
{
    let Some(at) = places.get(&name) else {
        return None;
    };
    let Some(channel) = channel_at(channels, *at) else {
        return None;
    };
    if channel.is_bound_as(name) {
        Some(*at)
    } else {
        None
    }
}

/// Whether an outcome is the refusal of a bind, or a failure.
fn is_failure(told: &Told) -> bool
    ensures { result ≡ spec.is_failure (states.told told.now) }
{
    matches!(told, Told::NotBound(_) | Told::Fault { .. })
}

/// The handles that come with an outcome get their numbers.
fn learn_of(known: &mut Handles, told: &Told) -> Result<(), NoMemory>
    ensures { OnOk result (known.new ≡ spec.known_with known.old (states.told told.now)) }
{
    match told {
        Told::Done(message) => known.learn(message.wires.as_slice()),
        _ => Ok(()),
    }
}

/// The line of an outcome that has one, where these handles have come.
fn line_of(alloc: Global, known: &Handles, name: u32, told: &Told) -> Result<Vec<u8>, NoMemory>
    requires { (line : List ℕ) × IsLine known.now name (states.told told.now) line }
    ensures { IfOk result (λ line. IsLine known.now name (states.told told.now) line.items) }
{
    let mut line = Vec::new(alloc);
    if put_answer(alloc, known, name, told, &mut line)? {
        Ok(line)
    } else {
        unreachable!()
    }
}

impl<K: Link> Player<K> {
    /// Nothing happened yet. It takes no memory.
    pub fn new(alloc: Global) -> Player<K>
        ensures { (result.channels.items ≡ []) × (result.known ≡ []) × (result.out.items ≡ []) × (result.failed ≡ false) }
    {
        Player {
            channels: Vec::new(alloc),
            places: BTreeMap::new(alloc),
            known: Handles::new(alloc),
            out: Vec::new(alloc),
            failed: false,
            alloc,
        }
    }

    /// The place of the connection that is bound by that name.
    pub fn find(&self, name: u32) -> Option<usize>
        requires { IsIndex self.now.places self.now.channels.items }
        ensures { MatchOption result (IsNowhere name self.now.channels.items) (λ at. IsThere name self.now.channels.items at) }
    {
        place_of(&self.places, self.channels.as_slice(), name)
    }

    /// The operation and the message that a call on the connection at that place asks for: None where it has a call out, where
    /// there is no such operation, and where the text isn't read as the values of a message of it.
    ///
    /// # Errors
    ///
    /// `NoMemory` where there is no memory for the message.
    pub fn message(
        &self,
        at: usize,
        name: &[u8],
        text: &[u8],
    ) -> Result<Option<(u16, Message)>, NoMemory>
        requires { at < length self.now.channels.items }
        ensures { IfOk result (λ found. MatchOption found (BarsAt self.now at name.now text.now) (λ x. CanStart self.now at name.now text.now x.0 x.1)) }
    {
        let client = &self.channels[at].wire.client;
        if client.is_calling() {
            return Ok(None);
        }
        let Some(number) = op_of(client.table(), name) else {
            return Ok(None);
        };
        match message_of(self.alloc, client, &self.known, number, text)? {
            Some(message) => Ok(Some((number, message))),
            None => Ok(None),
        }
    }

    /// An outcome is told: the handles that come with it get their numbers, and its line is printed.
    ///
    /// # Errors
    ///
    /// `NoMemory` where there is no memory for the line or for the handles that come.
    pub fn tell(&mut self, name: u32, told: &Told) -> Result<(), NoMemory>
        requires { IsTellable (states.told told.now) }
        ensures tells { OnOk result (TellsOutcome self.old name (states.told told.now) self.new) }
        ensures channels { self.new.channels ≡ self.old.channels }
    {
        learn_of(&mut self.known, told)?;
        let line = line_of(self.alloc, &self.known, name, told)?;
        put(&line, &mut self.out)?;
        self.failed = self.failed || is_failure(told);
        Ok(())
    }

    /// The line of a connection that is lost, where a call is out there.
    ///
    /// # Errors
    ///
    /// `NoMemory` where there is no memory for the line.
    pub fn tell_lost(&mut self, name: u32, called: bool) -> Result<(), NoMemory>
        ensures tells { OnOk result ((self.new.out.items ≡ self.old.out.items ++ lost_text name called) × (self.new ≡ record self.old { out = self.new.out })) }
        ensures channels { self.new.channels ≡ self.old.channels }
    {
        if called {
            put_lost(self.alloc, name, &mut self.out)?;
        }
        Ok(())
    }
}
