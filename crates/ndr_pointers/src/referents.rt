//! The pointers of a stub that are read or written.
ghost use Rattle.std.specs.Prelude.{◌≡◌, ◌≤◌, ◌<◌, ◌+◌, ◌-◌, ◌^◌, ◌++◌, ◌∷◌, [], ℕ, length, IfOk, IfErr, OnOk, OnErr, MatchResult, Ok, Err, None, Some, Option, option_map, if◌then◌else◌, ◌==◌};
ghost use Rattle.ndr_value.specs.Forms.{form};
ghost use Rattle.ndr_model.specs.Places.{look};
ghost use Rattle.ndr_model.specs.Same.{same};
ghost use Rattle.ndr_pointers.specs.Known.{IsIndex, mets};

use crate::fault::PointerFault;
use crate::full::FullPointer;
use crate::same::alike;
use ndr_value::Shape;
use std::alloc::Global;
use std::collections::BTreeMap;

/// How a pointer points: a reference is never null, a full pointer may lead to what another one
/// leads to.
#[derive(Clone, Copy, Debug, PartialEq, Eq)]
pub enum Points {
    Ref,
    Unique,
    Full,
}

/// What a pointer is that was met.
#[derive(Clone, Copy, Debug, PartialEq, Eq)]
pub enum Met {
    Null,
    /// Its referent follows. So many full pointers with other ids were met before it: a full pointer
    /// leads to the item of that number.
    New(u32),
    /// It leads to the item of that number, and no octets follow.
    Again(u32),
}

/// The pointers of one stub that were met or written so far.
#[derive(Drop)]
pub struct Referents<'a> {
    met: Vec<FullPointer<'a>>,
    // The places in `met`, by id.
    index: BTreeMap<u32, u32>,
    given: u32,
    ids: BTreeMap<u32, u32>,
    ghost indexed: { IsIndex index (mets met.items) },
}

impl<'a> Referents<'a> {
    ghost use Rattle.ndr_pointers.specs.Known.{nothing, known_with, item_id, is_item, id_of, follows};
    ghost use Rattle.ndr_pointers.specs.Shown.{known};
    ghost use Rattle.ndr_pointers.specs.Meeting.{Answers, meeting, pointer_meeting, full_meeting, below};
    ghost use Rattle.ndr_pointers.specs.declared.fault.PointerFault.TheVariants.{Memory};

    /// None yet.
    pub fn new(alloc: Global) -> Referents<'a>
        ensures { known result ≡ nothing }
    {
        Referents {
            met: Vec::new(alloc),
            index: BTreeMap::new(alloc),
            given: 0,
            ids: BTreeMap::new(alloc),
        }
    }

    /// How many full pointers with different ids were met.
    pub fn len(&self) -> u32
        ensures { result ≡ length (known self.now).met }
    {
        self.met.len() as u32
    }

    /// The number of the item to which full pointers of that id lead, and its shape. None where no
    /// full pointer with that id was met.
    pub fn find(&self, id: u32) -> Option<(u32, &'a Shape)>
        ensures { option_map (λ x. (x.0, form x.1.now)) result ≡ look (known self.now).met id }
    {
        match self.index.get(&id) {
            None => None,
            Some(number) => match self.met.get(*number as usize) {
                None => None,
                Some(full) => Some((*number, full.shape)),
            },
        }
    }

    // One more.
    fn add(&mut self, id: u32, shape: &'a Shape) -> Result<u32, PointerFault>
        requires { look (known self.old).met id ≡ None }
        ensures ok { IfOk result (λ n. (n ≡ length (known self.old).met) × (known self.new ≡ known_with (known self.old) ((known self.old).met ++ (id, form shape.now) ∷ []))) }
        ensures err { IfErr result (λ e. (e ≡ Memory) × (known self.new ≡ known self.old)) }
    {
        let number = self.len();
        if number == u32::MAX {
            return Err(PointerFault::Memory);
        }
        self.met.push(FullPointer { id, shape })?;
        match self.index.insert(id, number) {
            Ok(_) => Ok(number),
            Err(_) => {
                self.met.truncate(number as usize);
                Err(PointerFault::Memory)
            }
        }
    }

    fn meet_full(
        &mut self,
        id: u32,
        shape: &'a Shape,
        level: u16,
        at: usize,
    ) -> Result<Met, PointerFault>
        ensures exact { Answers result (known self.new) (full_meeting id (form shape.now) level at (known self.old) (look (known self.old).met id)) }
        ensures err { OnErr result (known self.new ≡ known self.old) }
    {
        match self.find(id) {
            None => {
                if level == 256 {
                    return Err(PointerFault::TooDeep(at));
                }
                Ok(Met::New(self.add(id, shape)?))
            }
            Some((number, known)) => {
                if !alike(known, shape) {
                    return Err(PointerFault::AliasShape(at));
                }
                Ok(Met::Again(number))
            }
        }
    }

    /// A pointer that was read: `level` is that of the part in which it stands, at index `at`, and
    /// `shape` what it points to. A parameter stands at level 0, what a pointer in it leads to at
    /// level 1.
    ///
    /// # Errors
    ///
    /// `AliasShape` where a full pointer's id was met with another shape, `TooDeep` where the referent
    /// would follow at level 257, and `Memory` where there is none for another full pointer.
    pub fn meet(
        &mut self,
        id: u32,
        kind: Points,
        shape: &'a Shape,
        level: u16,
        at: usize,
    ) -> Result<Met, PointerFault>
        requires { level ≤ 256 }
        ensures exact { Answers result (known self.new) (meeting kind id (form shape.now) level at (known self.old)) }
        ensures err { OnErr result (known self.new ≡ known self.old) }
    {
        match kind {
            Points::Ref => self.meet_other(level, at),
            Points::Unique => {
                if id == 0 {
                    return Ok(Met::Null);
                }
                self.meet_other(level, at)
            }
            Points::Full => {
                if id == 0 {
                    return Ok(Met::Null);
                }
                self.meet_full(id, shape, level, at)
            }
        }
    }

    // A pointer that isn't null and not full.
    fn meet_other(&self, level: u16, at: usize) -> Result<Met, PointerFault>
        ensures { MatchResult result (λ m. below level at (known self.now) (known self.now) ≡ Ok (m, known self.now)) (λ e. below level at (known self.now) (known self.now) ≡ Err e) }
    {
        if level == 256 {
            return Err(PointerFault::TooDeep(at));
        }
        Ok(Met::New(self.len()))
    }

    /// The id of a pointer that is written, and whether its referent follows: the next id, counted
    /// from 0x00020000 by fours, and true, unless the pointer is a full one to an item to which a
    /// pointer was written already. `full` is the number of a full pointer's item.
    ///
    /// # Errors
    ///
    /// `Memory` where there is none for another item, and no other.
    pub fn name(&mut self, full: Option<u32>) -> Result<(u32, bool), PointerFault>
        requires { (known self.old).given < 2 ^ 30 - 2 ^ 15 }
        ensures id { IfOk result (λ x. x.0 ≡ id_of (known self.old) full) }
        ensures follows { IfOk result (λ x. x.1 ≡ follows (known self.old) full) }
        ensures given { IfOk result (λ x. (known self.new).given ≡ (if x.1 then (known self.old).given + 1 else (known self.old).given)) }
        ensures ids { IfOk result (λ x. (n : ℕ) → item_id (known self.new).ids n ≡ (if is_item n full then Some x.0 else item_id (known self.old).ids n)) }
        ensures met { (known self.new).met ≡ (known self.old).met }
        ensures err { IfErr result (λ e. (e ≡ Memory) × (known self.new ≡ known self.old)) }
    {
        let item = match full {
            None => None,
            Some(item) => {
                if let Some(id) = self.ids.get(&item) {
                    return Ok((*id, false));
                }
                Some(item)
            }
        };
        let id = 0x0002_0000 + 4 * self.given;
        if let Some(item) = item {
            if self.ids.insert(item, id).is_err() {
                return Err(PointerFault::Memory);
            }
        }
        self.given += 1;
        Ok((id, true))
    }
}
