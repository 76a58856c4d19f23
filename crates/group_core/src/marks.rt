//! Which calls were asked to end.
ghost use Rattle.std.specs.Prelude.{◌≡◌, ◌+◌, ◌<◌, ◌≤◌, [], length, IfOk, OnOk, OnErr};
ghost use Rattle.std.specs.List.{list_any};
ghost use Rattle.handle_model.specs.Bases.{is_number};
ghost use Rattle.group_core.specs.Marks as spec;

use handle_model::{Base, BaseCall};
use rpc_base::NoMemory;
use std::alloc::Global;
use std::marker::Model;

/// Of the calls that a base has, and of each call accepted since, whether it was cancelled after it was
/// taken.
#[derive(Drop)]
pub struct Marks {
    first: u32,
    early: Vec<u32>,
    later: Vec<bool>,
    room: usize,
}

impl Model for Marks {
    ghost use Rattle.std.specs.Prelude.{◌+◌, ◌≤◌, vec_len, vec_capacity};
    ghost use Rattle.group_core.specs.Marks.{Marked};

    ghost Value = { Marked };

    ghost view = { λ m. record { first = m.first; early = m.early.items; later = m.later.items; room = m.room } };

    ghost invariant = { λ m. (vec_len m.early + m.room ≤ vec_capacity m.early) × (vec_len m.later + m.room ≤ vec_capacity m.later) };
}

impl Marks {
    /// Those of a new group, and room for none. It takes no memory.
    pub fn new(alloc: Global) -> Marks
        ensures { result ≡ record { first = 0; early = []; later = []; room = 0 } }
    {
        Marks {
            first: 0,
            early: Vec::new(alloc),
            later: Vec::new(alloc),
            room: 0,
        }
    }

    /// What is left of them at a base that stands for the older entries. There is room for none more.
    ///
    /// # Errors
    /// `NoMemory` where memory runs out.
    pub fn after(&self, alloc: Global, base: &Base) -> Result<Marks, NoMemory>
        requires { (self.now.first ≤ base.now.accepts) × (base.now.accepts ≤ self.now.first + length self.now.later) }
        ensures { IfOk result (λ marks. marks ≡ spec.marks_after self.now base.now) }
    {
        let passed = (base.accepts - self.first) as usize;
        Ok(Marks {
            first: base.accepts,
            early: marked_of(alloc, self, base.calls.as_slice())?,
            later: Vec::from_slice(alloc, &self.later.as_slice()[passed..])?,
            room: 0,
        })
    }

    /// Makes room for so many.
    ///
    /// # Errors
    /// `NoMemory` where memory runs out; the marks are then as before.
    pub fn reserve(&mut self, wanted: usize) -> Result<(), NoMemory>
        ensures same { (self.new.first ≡ self.old.first) × (self.new.early ≡ self.old.early) × (self.new.later ≡ self.old.later) }
        ensures ok { OnOk result (wanted ≤ self.new.room) }
        ensures more { self.old.room ≤ self.new.room }
    {
        if wanted <= self.room {
            return Ok(());
        }
        self.early.reserve(wanted)?;
        self.later.reserve(wanted)?;
        self.room = wanted;
        Ok(())
    }

    /// Gives memory back for which there is to be no room.
    pub fn trim(&mut self)
        ensures { self.new ≡ self.old }
    {
        let wanted = self.early.len() + self.room;
        self.early.shrink_to(wanted);
        let wanted = self.later.len() + self.room;
        self.later.shrink_to(wanted);
    }

    /// A further call is accepted.
    pub fn accept(&mut self)
        requires { 1 ≤ self.old.room }
        ensures { self.new ≡ spec.with_call self.old }
    {
        self.room -= 1;
        self.later.push_reserved(false);
    }

    /// A call is asked to end.
    pub fn mark(&mut self, call: u32)
        requires room { 1 ≤ self.old.room }
        requires known { call ≤ self.old.first + length self.old.later }
        ensures { self.new ≡ spec.with_mark call self.old }
    {
        self.room -= 1;
        if call <= self.first {
            self.early.push_reserved(call);
        } else {
            let at = (call - self.first - 1) as usize;
            self.later[at] = true;
        }
    }

    /// Whether a call was asked to end.
    pub fn has(&self, call: u32) -> bool
        ensures { result ≡ spec.is_marked self.now call }
    {
        if call <= self.first {
            return any_number(self.early.as_slice(), call);
        }
        let at = (call - self.first - 1) as usize;
        at < self.later.len() && self.later[at]
    }
}

/// The numbers of those that were asked to end.
#[tactic(auto, using(handle_model::proofs::Rest::resting))]
fn marked_of(alloc: Global, marks: &Marks, calls: &[BaseCall]) -> Result<Vec<u32>, NoMemory>
    ensures { IfOk result (λ numbers. numbers.items ≡ spec.marked_of marks.now calls.now) }
{
    let mut numbers = Vec::new(alloc);
    for call in calls {
        if marks.has(call.call) {
            numbers.push(call.call)?;
        }
    }
    Ok(numbers)
}

fn any_number(numbers: &[u32], number: u32) -> bool
    ensures { result ≡ list_any (is_number number) numbers.now }
{
    numbers.iter().any(|n| *n == number)
}
