//! Handles and their names.
ghost use Rattle.std.specs.Prelude.{◌≡◌, ◌<◌, ◌++◌, ◌∷◌, [], false, Some, length, slice_get, OnOk};
ghost use Rattle.client_texts.specs.Handles as spec;

use base_words::{put, put_decimal};
use rpc_base::{NoMemory, WireHandle};
use std::alloc::Global;
use std::collections::BTreeMap;
use std::marker::Model;

/// The handles that came. Contracts see them in the order in which they came.
#[derive(Drop)]
pub struct Handles {
    came: Vec<WireHandle>,
    // The place of each, from 1, by its attributes and its id.
    places: BTreeMap<(u32, u128), u64>,
}

impl Model for Handles {
    ghost use Rattle.std.specs.Prelude.{List};
    ghost use Rattle.rpc_base.specs.declared.identifiers.WireHandle.{WireHandle};
    ghost use Rattle.client_texts.specs.Index.{IsIndex};

    ghost Value = { List WireHandle };

    ghost view = { λ h. h.came.items };

    ghost invariant = { λ h. IsIndex h.places h.came.items };
}

impl Handles {
    /// None yet. It takes no memory.
    pub fn new(alloc: Global) -> Handles
        ensures { result ≡ [] }
    {
        Handles {
            came: Vec::new(alloc),
            places: BTreeMap::new(alloc),
        }
    }

    /// How many came.
    pub(crate) fn len(&self) -> usize
        ensures { result ≡ length self.now }
    {
        self.came.len()
    }

    /// The handle that so many others came before.
    pub(crate) fn at(&self, at: usize) -> WireHandle
        requires { at < length self.now }
        ensures { slice_get self.now at ≡ Some result }
    {
        self.came[at]
    }

    /// Its place among those that came, from 1.
    pub(crate) fn place(&self, wire: &WireHandle) -> u64
        ensures { result ≡ spec.place self.now wire.now }
    {
        match self.places.get(&(wire.attributes, wire.id)) {
            Some(place) => *place,
            None => self.came.len() as u64 + 1,
        }
    }

    fn is_among(&self, wire: &WireHandle) -> bool
        ensures { result ≡ spec.is_among self.now wire.now }
    {
        self.places.contains_key(&(wire.attributes, wire.id))
    }

    /// Whether a handle has a name: whether it is null, or came.
    pub(crate) fn has_name(&self, wire: &WireHandle) -> bool
        ensures { result ≡ spec.has_name self.now wire.now }
    {
        is_null(wire) || self.is_among(wire)
    }

    /// One that didn't come before is the next one.
    fn add(&mut self, wire: &WireHandle) -> Result<(), NoMemory>
        requires { spec.is_among self.old wire.now ≡ false }
        ensures { OnOk result (self.new ≡ self.old ++ wire.now ∷ []) }
    {
        let count = self.came.len();
        let place = count as u64 + 1;
        self.came.push(*wire)?;
        match self.places.insert((wire.attributes, wire.id), place) {
            Ok(_) => Ok(()),
            Err(_) => {
                self.came.truncate(count);
                Err(NoMemory)
            }
        }
    }

    /// A handle comes.
    fn learn_one(&mut self, wire: &WireHandle) -> Result<(), NoMemory>
        ensures { OnOk result (self.new ≡ spec.with_handle self.old wire.now) }
    {
        if self.has_name(wire) {
            return Ok(());
        }
        self.add(wire)
    }

    /// Handles come, in this order: those that aren't null and didn't come before are the next ones.
    ///
    /// # Errors
    ///
    /// `NoMemory` where there is no memory for the handles; some of them may have been learnt.
    pub fn learn(&mut self, wires: &[WireHandle]) -> Result<(), NoMemory>
        ensures { OnOk result (self.new ≡ spec.with_handles self.old wires.now) }
    {
        let mut left = wires;
        while let Some((first, others)) = left.split_first() {
            self.learn_one(first)?;
            left = others;
        }
        Ok(())
    }

    /// Adds the name of a handle.
    #[tactic(auto, unfolding(crate::specs::Handles::name))]
    pub(crate) fn put_name(
        &self,
        alloc: Global,
        wire: &WireHandle,
        into: &mut Vec<u8>,
    ) -> Result<(), NoMemory>
        ensures { OnOk result (into.new.items ≡ into.old.items ++ spec.name self.now wire.now) }
    {
        if is_null(wire) {
            return put(b"null", into);
        }
        put(b"h", into)?;
        put_decimal(alloc, self.place(wire), into)
    }
}

fn is_null(wire: &WireHandle) -> bool
    ensures { result ≡ spec.is_null wire.now }
{
    wire.attributes == 0 && wire.id == 0
}
