//! The desk behind the interface.
ghost use Rattle.std.specs.Prelude.{◌≡◌, ◌↔◌, ◌==◌, ◌≤◌, ◌∷◌, [], not, ◌+◌, nat_le, nat_lt, true, length, take, IfOk, OnErr, OnOk, Err};
ghost use Rattle.ndr_value.specs.Values.{msg, vals};
ghost use Rattle.manager_api.specs.Answers.{Gives};
ghost use Rattle.manager_api.specs.Arguments.{uint_at as uint_at_spec};
ghost use Rattle.epm_manager.specs.Entries.{is_note, most_entries};
ghost use Rattle.epm_manager.specs.Wholes.{AllTyped, IsWhole, all_noted, have_notes};
ghost use Rattle.epm_manager.specs.Found.{after, found as found_spec, kept_by as kept_by_spec, handles_by as handles_by_spec};
ghost use Rattle.epm_manager.specs.Asked.{entries_at as entries_at_spec, lookup_wants as lookup_wants_spec, map_wants as map_wants_spec};
ghost use Rattle.epm_manager.specs.Steps.{with_new, status_of as status_of_spec, insert_new, insert_step, delete_step, lists, lookup_step, map_step, free_step};

use crate::numbering::{note_types, numbered_from};
use crate::{
    Given, Likeness, MapEntry, Numbered, Wanted, are_there, entries_at, entry_values, find,
    last_number, listing, lookup_wants, map_wants, status_alone, tower_values, unlike,
};
use desk_kit::pointers;
use handle_model::{CookieRow, DueItem, Rundown};
use manager_api::{Answer, Desk, FixedDesk, Kept, Probe, handle_and_status, or_no_memory, uint_at};
use ndr_value::{Message, Values};
use rpc_base::{NoMemory, Status};
use std::alloc::Global;
use std::marker::Model;
use thiserror::Error;

/// How many entries the map may have.
pub const MOST_ENTRIES: usize = 4096;

/// Why an entry isn't registered.
#[derive(Clone, Copy, Debug, PartialEq, Eq, Error)]
pub enum RegisterRefusal {
    /// The map has 4,096 entries.
    #[error("the endpoint map is full")]
    Full,
    /// There is no memory for the entry.
    #[error("out of memory")]
    Memory,
}

/// The desk of the endpoint map. Contracts see it as the entries, by rising number, the last number
/// that was given, and the number of its handles, of those issued and neither closed nor run down.
#[derive(Drop)]
pub struct EpmDesk {
    alloc: Global,
    entries: Vec<Numbered>,
    last: u64,
    handles: usize,
}

impl Model for EpmDesk {
    ghost use Rattle.epm_manager.specs.Entries.{EndpointMap};
    ghost use Rattle.epm_manager.specs.Wholes.{IsWhole};

    ghost Value = { EndpointMap };

    ghost view = { λ desk. record { entries = desk.entries.items; last = desk.last; handles = desk.handles } };

    ghost invariant = { λ desk. IsWhole desk.entries.items };
}

// Whether the map may have so many more entries.
fn fits(old: &[Numbered], new: &[MapEntry]) -> bool
    requires { length old.now ≤ MOST_ENTRIES }
    ensures { result ≡ nat_le (length old.now + length new.now) most_entries }
{
    new.len() <= MOST_ENTRIES - old.len()
}

// What becomes of the handle of a lookup or a mapping.
fn kept_by(cookie: Option<u64>, given: &Given) -> Kept
    ensures { result ≡ kept_by_spec cookie given.now.more given.now.entries.items }
{
    if given.more {
        Kept::Cookie(last_number(cookie.unwrap_or(0), &given.entries))
    } else {
        Kept::Null
    }
}

fn handles_by(cookie: Option<u64>, kept: Kept, handles: usize) -> usize
    ensures { result ≡ handles_by_spec cookie kept handles }
{
    match (cookie, kept) {
        (None, Kept::Cookie(_)) => handles.saturating_add(1),
        (Some(_), Kept::Null) => handles.saturating_sub(1),
        _ => handles,
    }
}

fn status_of(entries: &[Numbered]) -> Status
    ensures { result.0 ≡ status_of_spec entries.now }
{
    if entries.is_empty() {
        Status::EPT_S_NOT_REGISTERED
    } else {
        Status::OK
    }
}

impl EpmDesk {
    /// One of an empty map.
    pub fn new(alloc: Global) -> EpmDesk
        ensures entries { result.entries ≡ [] }
        ensures last { result.last ≡ 0 }
        ensures handles { result.handles ≡ 0 }
    {
        EpmDesk {
            alloc,
            entries: Vec::new(alloc),
            last: 0,
            handles: 0,
        }
    }

    /// How many handles were issued and are neither closed nor run down.
    pub fn open_handles(&self) -> usize
        ensures { result ≡ self.now.handles }
    {
        self.handles
    }

    /// Adds an entry, behind those that are there.
    ///
    /// # Errors
    ///
    /// `Full` where the map has 4,096 entries, else `Memory` where there is no memory for it.
    pub fn register(&mut self, entry: MapEntry) -> Result<(), RegisterRefusal>
        requires { is_note entry.note ≡ true }
        ensures ok { OnOk result (self.new ≡ with_new self.old self.old.entries (entry ∷ [])) }
        ensures full { (result ≡ Err RegisterRefusal.Full) ↔ (length self.old.entries ≡ MOST_ENTRIES) }
        ensures err { OnErr result (self.new ≡ self.old) }
    {
        if self.entries.len() >= MOST_ENTRIES {
            return Err(RegisterRefusal::Full);
        }
        note_types(&entry);
        let number = self.last.saturating_add(1);
        if self.entries.push(Numbered { number, entry }).is_err() {
            return Err(RegisterRefusal::Memory);
        }
        self.last = number;
        Ok(())
    }

    // New entries behind all that are there.
    fn insert_behind(&mut self, new: Vec<MapEntry>) -> Result<Answer, NoMemory>
        requires { have_notes new.items ≡ true }
        ensures { Gives result (insert_new self.old self.old.entries new.items) self.old self.new }
    {
        if !fits(&self.entries, &new) {
            return Ok(status_alone(self.alloc, Status::NCA_S_FAULT_UNSPEC.0)?);
        }
        let answer = status_alone(self.alloc, 0)?;
        let mut more = numbered_from(self.alloc, self.last, new)?;
        self.entries.append(&mut more.entries)?;
        self.last = more.last;
        Ok(answer)
    }

    // New entries behind those that they don't replace.
    fn insert_over(&mut self, old: Vec<Numbered>, new: Vec<MapEntry>) -> Result<Answer, NoMemory>
        requires old { IsWhole old.items }
        requires notes { have_notes new.items ≡ true }
        ensures { Gives result (insert_new self.old old.items new.items) self.old self.new }
    {
        if !fits(&old, &new) {
            return Ok(status_alone(self.alloc, Status::NCA_S_FAULT_UNSPEC.0)?);
        }
        let answer = status_alone(self.alloc, 0)?;
        let mut more = numbered_from(self.alloc, self.last, new)?;
        let mut entries = old;
        entries.append(&mut more.entries)?;
        self.entries = entries;
        self.last = more.last;
        Ok(answer)
    }

    // ept_insert
    fn insert(&mut self, message: &Message) -> Result<Answer, NoMemory>
        ensures { Gives result (insert_step self.old (not (uint_at_spec (msg message.now) 2 == 0)) (entries_at_spec (msg message.now))) self.old self.new }
    {
        let Some(new) = entries_at(self.alloc, message)? else {
            return Ok(status_alone(self.alloc, Status::NCA_S_FAULT_UNSPEC.0)?);
        };
        if uint_at(message, 2) == 0 {
            return self.insert_behind(new);
        }
        let old = unlike(self.alloc, Likeness::Service, &new, &self.entries)?;
        self.insert_over(old, new)
    }

    // ept_delete
    fn delete(&mut self, message: &Message) -> Result<Answer, NoMemory>
        ensures { Gives result (delete_step self.old (entries_at_spec (msg message.now))) self.old self.new }
    {
        let Some(gone) = entries_at(self.alloc, message)? else {
            return Ok(status_alone(self.alloc, Status::EPT_S_NOT_REGISTERED.0)?);
        };
        if !are_there(&gone, &self.entries) {
            return Ok(status_alone(self.alloc, Status::EPT_S_NOT_REGISTERED.0)?);
        }
        let answer = status_alone(self.alloc, 0)?;
        self.entries = unlike(self.alloc, Likeness::Entry, &gone, &self.entries)?;
        Ok(answer)
    }

    // What is given, with the handle of what follows it.
    fn listed(
        &mut self,
        cookie: Option<u64>,
        given: &Given,
        items: Values,
    ) -> Result<Answer, NoMemory>
        ensures { Gives result (lists (vals items.items) self.old cookie given.now.more given.now.entries.items) self.old self.new }
    {
        let kept = kept_by(cookie, given);
        let towers = tower_values(self.alloc, &given.entries)?;
        let status = status_of(&given.entries);
        let answer = listing(self.alloc, items, towers, status.0, kept)?;
        self.handles = handles_by(cookie, kept, self.handles);
        Ok(answer)
    }

    // ept_lookup
    fn lookup(&mut self, cookie: Option<u64>, message: &Message) -> Result<Answer, NoMemory>
        ensures whole { IsWhole self.old.entries }
        ensures gives { Gives result (lookup_step self.old cookie (lookup_wants_spec (msg message.now)) (uint_at_spec (msg message.now) 5)) self.old self.new }
    {
        let wanted = lookup_wants(self.alloc, message)?;
        let given = self.found(&wanted, cookie, uint_at(message, 5))?;
        let items = entry_values(self.alloc, &given.entries)?;
        self.listed(cookie, &given, items)
    }

    // ept_map
    fn map(&mut self, cookie: Option<u64>, message: &Message) -> Result<Answer, NoMemory>
        ensures whole { IsWhole self.old.entries }
        ensures gives { Gives result (map_step self.old cookie (map_wants_spec (msg message.now)) (uint_at_spec (msg message.now) 3)) self.old self.new }
    {
        let wanted = map_wants(self.alloc, message)?;
        let given = self.found(&wanted, cookie, uint_at(message, 3))?;
        let items = pointers(self.alloc, 0, given.entries.len() as u32)?;
        self.listed(cookie, &given, items)
    }

    // ept_lookup_handle_free
    fn free(&mut self, cookie: Option<u64>) -> Result<Answer, NoMemory>
        ensures { Gives result (free_step self.old cookie) self.old self.new }
    {
        let answer = handle_and_status(self.alloc, Kept::Null, 0)?;
        if cookie.is_some() {
            self.handles = self.handles.saturating_sub(1);
        }
        Ok(answer)
    }

    fn found(&self, wanted: &Wanted, cookie: Option<u64>, most: u64) -> Result<Given, NoMemory>
        ensures few { IfOk result (λ g. length g.entries.items ≤ MOST_ENTRIES) }
        ensures entries { IfOk result (λ g. g.entries.items ≡ take most (found_spec wanted.now (after cookie) self.now.entries)) }
        ensures more { IfOk result (λ g. g.more ≡ nat_lt most (length (found_spec wanted.now (after cookie) self.now.entries))) }
    {
        find(self.alloc, &self.entries, wanted, cookie.unwrap_or(0), most)
    }
}

impl Rundown for EpmDesk {
    ghost use Rattle.std.specs.Prelude.{◌≡◌};
    ghost use Rattle.manager_api.specs.Handles.{one_less};
    ghost use Rattle.epm_manager.specs.Steps.{with_handles};

    ghost runs_down = { λ before item after. after ≡ with_handles before (one_less before.handles) };

    fn rundown(&mut self, _item: DueItem) {
        self.handles = self.handles.saturating_sub(1);
    }
}

impl Desk for EpmDesk {
    ghost use Rattle.manager_api.specs.Answers.{Does};
    ghost use Rattle.epm_manager.specs.Table.{epm_table};
    ghost use Rattle.epm_manager.specs.Steps.{epm_step};

    ghost table = { λ desk. epm_table };

    ghost may = { λ before call told answer after. Does (epm_step before call) before answer after };

    fn call<P: Probe>(
        &mut self,
        _iface: u16,
        op: u16,
        message: Message,
        cookies: CookieRow,
        _probe: &mut P,
    ) -> Answer {
        let cookie = cookies[0];
        match op {
            0 => or_no_memory(self.insert(&message)),
            1 => or_no_memory(self.delete(&message)),
            2 => or_no_memory(self.lookup(cookie, &message)),
            3 => or_no_memory(self.map(cookie, &message)),
            4 => or_no_memory(self.free(cookie)),
            _ => unreachable!(),
        }
    }
}

impl FixedDesk for EpmDesk {
    ghost use Rattle.std.specs.Prelude.{refl};
    ghost use Rattle.epm_manager.specs.Table.{epm_table};

    ghost fixed = { epm_table };

    ghost serves = { λ desk. refl };
}
