//! What a journal goes on from once its older entries are folded away.
ghost use Rattle.std.specs.Prelude.{◌≡◌, ◌++◌, IfOk, OnOk};
ghost use Rattle.handle_model.specs.Bases as spec;

use crate::entry::{Asked, DueItems};
use rpc_base::{Items, NoMemory};
use std::alloc::Global;

/// The numbers of connections.
pub type Conns = Items<u32>;

/// A call that was accepted before, and waits or runs.
#[derive(Debug, Drop)]
pub struct BaseCall {
    pub call: u32,
    pub asked: Asked,
    /// It was taken: it runs.
    pub taken: bool,
    pub cancelled: bool,
    pub orphaned: bool,
}

/// The calls of a base, by rising number.
pub type BaseCalls = Items<BaseCall>;

/// What a journal goes on from: what is left of the entries before its own.
#[derive(Debug, Drop)]
pub struct Base {
    /// How many entries there were.
    pub count: u64,
    /// How many connections joined.
    pub joins: u32,
    /// How many calls were accepted.
    pub accepts: u32,
    /// How many of their slots may have issued a handle.
    pub opens: u32,
    /// The connections that are open, by rising number.
    pub conns: Conns,
    /// The calls that wait or run.
    pub calls: BaseCalls,
    /// The handles that are live, with kind and cookie, by rising serial.
    pub handles: DueItems,
}

impl BaseCall {
    /// An equal one.
    ///
    /// # Errors
    /// `NoMemory` where memory runs out.
    pub fn copy(&self, alloc: Global) -> Result<BaseCall, NoMemory>
        ensures { IfOk result (λ copy. copy ≡ self.now) }
    {
        Ok(BaseCall {
            call: self.call,
            asked: self.asked.copy(alloc)?,
            taken: self.taken,
            cancelled: self.cancelled,
            orphaned: self.orphaned,
        })
    }
}

impl Base {
    /// That of a new group: nothing. It takes no memory.
    pub fn empty(alloc: Global) -> Base
        ensures { result ≡ spec.empty_base }
    {
        Base {
            count: 0,
            joins: 0,
            accepts: 0,
            opens: 0,
            conns: Items::new(alloc),
            calls: Items::new(alloc),
            handles: Items::new(alloc),
        }
    }

    /// An equal one.
    ///
    /// # Errors
    /// `NoMemory` where memory runs out.
    pub fn copy(&self, alloc: Global) -> Result<Base, NoMemory>
        ensures { IfOk result (λ copy. copy ≡ self.now) }
    {
        let mut calls = Items::new(alloc);
        put_copies(alloc, self.calls.as_slice(), &mut calls)?;
        Ok(Base {
            count: self.count,
            joins: self.joins,
            accepts: self.accepts,
            opens: self.opens,
            conns: self.conns.copy(alloc)?,
            calls,
            handles: self.handles.copy(alloc)?,
        })
    }
}

/// Adds equal calls.
#[tactic(auto, using(crate::proofs::Rest::resting))]
fn put_copies(alloc: Global, calls: &[BaseCall], into: &mut BaseCalls) -> Result<(), NoMemory>
    ensures { OnOk result (into.new ≡ into.old ++ calls.now) }
{
    for call in calls {
        into.push(call.copy(alloc)?)?;
    }
    Ok(())
}
