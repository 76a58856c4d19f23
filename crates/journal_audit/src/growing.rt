//! A base that grows line by line. What is asked of the next call is looked up by number, so each line
//! costs the same however many came before.
ghost use Rattle.std.specs.Prelude.{◌≡◌, ◌↔◌, ◌&&◌, ℕ, [], IsTrue, IfOk};
ghost use Rattle.std.specs.List.{list_any};
ghost use Rattle.handle_model.specs.Bases as bases;
ghost use Rattle.handle_model.specs.Sound as spec;
ghost use Rattle.journal_audit.specs.Calls as calls;
ghost use Rattle.journal_audit.specs.Numbered as seen;
ghost use Rattle.journal_audit.specs.SoFar.{IsSoundSoFar, with_call};

use crate::calls::{comes_behind, is_within, serials_differ};
use crate::held::is_held;
use crate::looks::{
    add_holds_of, add_serials, add_uses_of, all_free, all_known, all_may_open, is_fresh,
};
use crate::numbers::{Numbers, add, no_numbers};
use handle_model::{Base, BaseCall, Home, names_apart};
use handle_table::HandleTable;
use rpc_base::NoMemory;
use std::alloc::Global;
use std::marker::Model;

/// A base as far as it was read.
#[derive(Drop)]
pub struct Growing {
    home: Home,
    base: Base,
    /// Its handles.
    handles: HandleTable,
    /// The numbers of its connections.
    conns: Numbers,
    /// The serials that its calls may issue.
    serials: Numbers,
    /// The serials of the handles that its taken calls name.
    used: Numbers,
    /// Of these, those that one of the calls alone may use.
    held: Numbers,
}

impl Model for Growing {
    ghost use Rattle.journal_audit.specs.Numbered.{Grown, Kept};

    ghost Value = { Grown };

    ghost view = { λ g. record { home = g.home; base = g.base } };

    ghost invariant = { λ g. Kept g.home g.base g.handles g.conns g.serials g.used g.held };
}

impl Growing {
    /// A base whose own line was read.
    ///
    /// # Errors
    /// `NoMemory` where memory runs out.
    pub fn of(alloc: Global, home: Home, base: Base) -> Result<Growing, NoMemory>
        requires sound { IsSoundSoFar home base }
        requires none { base.calls ≡ [] }
        ensures { IfOk result (λ grown. grown ≡ record { home = home; base = base }) }
    {
        let handles = HandleTable::of(alloc, home, &base)?;
        let conns = set_of(alloc, base.conns.as_slice())?;
        Ok(Growing {
            home,
            base,
            handles,
            conns,
            serials: no_numbers(alloc),
            used: no_numbers(alloc),
            held: no_numbers(alloc),
        })
    }

    fn takes_apart(&self, call: &BaseCall) -> bool
        requires { IsSoundSoFar self.now.home self.now.base }
        ensures { result ≡ calls.takes_apart self.now.home self.now.base call.now }
    {
        let slots = call.asked.slots.as_slice();
        let apart = names_apart(slots);
        let known = all_known(&self.handles, slots);
        let free = all_free(&self.handles, &self.used, &self.held, slots);
        all_three(apart, known, free)
    }

    fn is_fresh(&self, call: &BaseCall) -> bool
        ensures { result ≡ spec.is_fresh self.now.base call.now }
    {
        is_fresh(&self.conns, call)
    }

    fn opens_apart(&self, call: &BaseCall) -> bool
        ensures { result ≡ calls.opens_apart self.now.base call.now }
    {
        let slots = call.asked.slots.as_slice();
        let apart = serials_differ(slots);
        let new = all_may_open(&self.handles, self.base.opens, &self.serials, slots);
        both(apart, new)
    }

    fn comes_next(&self, call: &BaseCall) -> bool
        requires { IsSoundSoFar self.now.home self.now.base }
        ensures { result ≡ calls.comes_next self.now.home self.now.base call.now }
    {
        call.call <= self.base.accepts
            && comes_behind(self.base.calls.as_slice(), call)
            && self.joins_calls(call)
    }

    fn joins_calls(&self, call: &BaseCall) -> bool
        requires { IsSoundSoFar self.now.home self.now.base }
        ensures { result ≡ calls.joins_calls self.now.home self.now.base call.now }
    {
        is_within(&self.base, call)
            && self.is_fresh(call)
            && (!call.taken || self.takes_apart(call))
            && self.opens_apart(call)
    }

    /// Whether it may go on with the call.
    pub fn goes_on(&self, call: &BaseCall) -> bool
        requires { IsSoundSoFar self.now.home self.now.base }
        ensures { IsTrue result ↔ IsSoundSoFar self.now.home (with_call self.now.base call.now) }
    {
        self.comes_next(call)
    }

    /// The same with the call.
    ///
    /// # Errors
    /// `NoMemory` where memory runs out.
    pub fn with(self, call: BaseCall) -> Result<Growing, NoMemory>
        requires { IsSoundSoFar self.home (with_call self.base call) }
        ensures { IfOk result (λ grown. grown ≡ record { home = self.home; base = with_call self.base call }) }
    {
        let mut grown = self;
        add_serials(&mut grown.serials, call.asked.slots.as_slice())?;
        add_uses_of(&grown.handles, &mut grown.used, &call)?;
        add_holds_of(&grown.handles, &mut grown.held, &call)?;
        grown.base.calls.push(call)?;
        Ok(grown)
    }

    /// Whether something is open in it.
    pub fn is_held(&self) -> bool
        ensures { result ≡ spec.is_held self.now.base }
    {
        is_held(&self.base)
    }

    /// The base.
    pub fn into_base(self) -> Base
        ensures { result ≡ self.base }
    {
        self.base
    }
}

/// The set of these numbers.
fn set_of(alloc: Global, numbers: &[u32]) -> Result<Numbers, NoMemory>
    ensures { IfOk result (λ set. (n : ℕ) → seen.has set n ≡ list_any (bases.is_number n) numbers.now) }
{
    let mut set = no_numbers(alloc);
    for number in numbers {
        add(&mut set, *number)?;
    }
    Ok(set)
}

fn both(first: bool, second: bool) -> bool
    ensures { result ≡ (first && second) }
{
    first && second
}

fn all_three(first: bool, second: bool, third: bool) -> bool
    ensures { result ≡ (first && second && third) }
{
    first && second && third
}
