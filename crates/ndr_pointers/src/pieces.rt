//! The pieces of a flat part.
ghost use Rattle.std.specs.Prelude.{◌≡◌, ◌^◌, Option, ◌<◌, ◌≤◌, ◌+◌, ◌-◌, ℕ, ℤ, List, length, true, IfOk, MatchOption, Some, None, slice_get};
ghost use Rattle.rpc_base.specs.declared.identifiers.WireHandle.{WireHandle};
ghost use Rattle.ndr_value.specs.Forms.{form, forms, arms_of, body, types_of, ArmForms, OfStruct, OfUnion, OfUint, OfEnum};
ghost use Rattle.ndr_value.specs.Fits.{arm_of};
ghost use Rattle.ndr_table.specs.Ordered.{is_size};
ghost use Rattle.ndr_table.specs.Shown.{shown};
ghost use Rattle.ndr_scalars.specs.Scalars.{up, octets_of, signed_at};
ghost use Rattle.ndr_arrays.specs.declared.counts.Counts.{Counts};
ghost use Rattle.ndr_model.specs.Part.{in_place, tag_size};
ghost use Rattle.ndr_model.specs.Reading.{number, name_at, wire_at, chars_at, array_at, tag_at, opened_at, begun, struct_at, unless_short};
ghost use Rattle.ndr_pointers.specs.Gives.{Gives};

use crate::scan_fault::ReadError;
use crate::state::Reader;
use ndr_arrays::{CountFault, Counts, TextFault, read_counts, read_text};
use ndr_model::Departure;
use ndr_scalars::{read_half_word, read_int, read_uint, read_word};
use ndr_table::octets;
use ndr_value::{Arm, ArrayKind, Shape, selected_arm, tag_fits};
use rpc_base::{WireHandle, get_handle};

/// The least multiple of an alignment not below an index.
pub fn aligned(at: usize, align: u8) -> usize
    requires size { is_size align ≡ true }
    requires small { at + 8 < 2 ^ 64 }
    ensures { result ≡ up at align }
{
    match align {
        1 => at,
        2 => (at + 1) / 2 * 2,
        4 => (at + 3) / 4 * 4,
        _ => (at + 7) / 8 * 8,
    }
}

/// The octets of a union's tag.
pub fn tag_octets(kind: &Shape) -> u8
    ensures exact { result ≡ tag_size (form kind.now) }
    ensures size { is_size result ≡ true }
{
    match kind {
        Shape::Int(size) => octets(*size),
        Shape::Uint(size) => octets(*size),
        Shape::Enum(_) => 2,
        _ => 1,
    }
}

/// The arm that a tag selects, where it is of the union's kind.
pub fn arm_for<'a>(kind: &Shape, arms: &'a [Arm], tag: i64) -> Option<&'a Arm>
    ensures { MatchOption result (arm_of (OfUnion (form kind.now) (arms_of arms.now)) tag ≡ None) (λ a. arm_of (OfUnion (form kind.now) (arms_of arms.now)) tag ≡ Some (body a.now.shape)) }
{
    if tag_fits(kind, tag) {
        selected_arm(arms, tag)
    } else {
        None
    }
}

impl<'a> Reader<'a> {
    ghost use Rattle.ndr_pointers.specs.Views.{types_in};

    /// A number without a sign, and the index after it.
    ///
    /// # Errors
    ///
    /// `Short` where the octets end before the number's last.
    pub fn number(&self, size: u8, at: usize) -> Result<(u64, usize), ReadError>
        ensures exact { Gives (λ (x : ℕ × ℕ). x) result (number self.now.order self.now.octets.now size at) }
        ensures place { IfOk result (λ x. x.1 ≡ up at (octets_of size) + octets_of size) }
    {
        match read_uint(self.order, size, self.octets, at) {
            Ok(found) => Ok(found),
            Err(_) => Err(ReadError::Departs(Departure::Short(self.octets.len()))),
        }
    }

    /// An octet, and the index after it.
    ///
    /// # Errors
    ///
    /// `Short` where no octet stands there.
    #[tactic(auto, unfolding(ndr_scalars::specs::Scalars::number_at), using(crate::proofs::Octets::octet_is))]
    pub fn octet(&self, at: usize) -> Result<(u8, usize), ReadError>
        ensures exact { Gives (λ (x : ℕ × ℕ). x) result (number self.now.order self.now.octets.now 1 at) }
        ensures place { IfOk result (λ x. x.1 ≡ at + 1) }
    {
        let len = self.octets.len();
        if at >= len {
            return Err(ReadError::Departs(Departure::Short(len)));
        }
        Ok((self.octets[at], at + 1))
    }

    /// A number with a sign, and the index after it.
    ///
    /// # Errors
    ///
    /// `Short` where the octets end before the number's last.
    pub fn signed(&self, size: u8, at: usize) -> Result<(i64, usize), ReadError>
        ensures exact { Gives (λ (x : ℤ × ℕ). x) result (unless_short (length self.now.octets.now) (signed_at self.now.order size self.now.octets.now at)) }
        ensures place { IfOk result (λ x. x.1 ≡ up at (octets_of size) + octets_of size) }
    {
        match read_int(self.order, size, self.octets, at) {
            Ok(found) => Ok(found),
            Err(_) => Err(ReadError::Departs(Departure::Short(self.octets.len()))),
        }
    }

    /// A number of four octets, and the index after it.
    ///
    /// # Errors
    ///
    /// `Short` where the octets end before the number's last.
    pub fn word(&self, at: usize) -> Result<(u32, usize), ReadError>
        ensures exact { Gives (λ (x : ℕ × ℕ). x) result (number self.now.order self.now.octets.now 4 at) }
        ensures place { IfOk result (λ x. x.1 ≡ up at 4 + 4) }
    {
        match read_word(self.order, self.octets, at) {
            Ok(found) => Ok(found),
            Err(_) => Err(ReadError::Departs(Departure::Short(self.octets.len()))),
        }
    }

    // A number of two octets, and the index after it.
    fn half_word(&self, at: usize) -> Result<(u16, usize), ReadError>
        ensures exact { Gives (λ (x : ℕ × ℕ). x) result (number self.now.order self.now.octets.now 2 at) }
        ensures place { IfOk result (λ x. x.1 ≡ up at 2 + 2) }
    {
        match read_half_word(self.order, self.octets, at) {
            Ok(found) => Ok(found),
            Err(_) => Err(ReadError::Departs(Departure::Short(self.octets.len()))),
        }
    }

    /// A name of an enumeration of so many, and the index after it.
    ///
    /// # Errors
    ///
    /// `Short` where the octets end before the number's last, and `Text` where the number is no name.
    pub fn name(&self, count: u16, at: usize) -> Result<(u16, usize), ReadError>
        ensures exact { Gives (λ (x : ℕ × ℕ). x) result (name_at self.now.order self.now.octets.now count at) }
        ensures place { IfOk result (λ x. x.1 ≡ up at 2 + 2) }
    {
        let (number, after) = self.number(2, at)?;
        if number < u64::from(count) {
            return Ok((number as u16, after));
        }
        Err(ReadError::Departs(Departure::Text(after - 2)))
    }

    /// A context handle, and the index after it.
    ///
    /// # Errors
    ///
    /// `Short` where the octets end before the handle's last.
    pub fn wire(&self, at: usize) -> Result<(WireHandle, usize), ReadError>
        ensures { Gives (λ (x : WireHandle × ℕ). x) result (wire_at self.now.order self.now.octets.now at) }
    {
        let len = self.octets.len();
        if at > len || len - at < 20 {
            return Err(ReadError::Departs(Departure::Short(len)));
        }
        let place = (at + 3) / 4 * 4;
        if place + 20 > len {
            return Err(ReadError::Departs(Departure::Short(len)));
        }
        Ok((get_handle(self.order, self.octets, place), place + 20))
    }

    /// The octets of a text before its NUL, and the index after it. `size` is the most that it has where
    /// its shape says so, and `moved` its max_count where that stands in front of a structure.
    ///
    /// # Errors
    ///
    /// As `read_text` of `ndr_arrays` says.
    pub fn chars(
        &self,
        size: Option<u32>,
        moved: Option<u32>,
        at: usize,
    ) -> Result<(&'a [u8], usize), ReadError>
        ensures { Gives (λ x. (x.0.now, x.1)) result (chars_at self.now.order self.now.octets.now size moved at) }
    {
        match read_text(size, self.order, self.octets, at, moved) {
            Ok(found) => Ok(found),
            Err(TextFault::Short(len)) => Err(ReadError::Departs(Departure::Short(len))),
            Err(TextFault::Bound(index)) => Err(ReadError::Departs(Departure::Bound(index))),
            Err(TextFault::Text(index)) => Err(ReadError::Departs(Departure::Text(index))),
        }
    }

    /// The counts of an array, and the index after them. `moved` is its max_count where that stands in
    /// front of a structure.
    ///
    /// # Errors
    ///
    /// As `read_counts` of `ndr_arrays` says.
    #[inline(never)]
    pub fn counts(
        &self,
        kind: &ArrayKind,
        moved: Option<u32>,
        at: usize,
    ) -> Result<(Counts, usize), ReadError>
        ensures { Gives (λ (x : Counts × ℕ). x) result (array_at self.now.order self.now.octets.now kind.now moved at) }
    {
        match read_counts(kind, self.order, self.octets, at, moved) {
            Ok(found) => Ok(found),
            Err(CountFault::Short(len)) => Err(ReadError::Departs(Departure::Short(len))),
            Err(CountFault::Bound(index)) => Err(ReadError::Departs(Departure::Bound(index))),
        }
    }

    // A number that may be a tag: tags are signed.
    fn unsigned_tag(&self, size: u8, at: usize) -> Result<(i64, usize), ReadError>
        ensures exact { (arms : ArmForms) → Gives (λ (x : ℤ × ℕ). x) result (tag_at self.now.order self.now.octets.now (OfUint size) arms at) }
        ensures place { IfOk result (λ x. x.1 ≡ up at (octets_of size) + octets_of size) }
    {
        let (number, after) = self.number(size, at)?;
        if number < 1 << 63 {
            return Ok((number as i64, after));
        }
        Err(ReadError::Departs(Departure::Tag(after - octets(size) as usize)))
    }

    // A tag that is a name of an enumeration of so many. A number that is no name departs as a name where
    // an arm is for it, and else as a tag.
    fn name_tag(&self, count: u16, arms: &[Arm], at: usize) -> Result<(i64, usize), ReadError>
        ensures exact { Gives (λ (x : ℤ × ℕ). x) result (tag_at self.now.order self.now.octets.now (OfEnum count) (arms_of arms.now) at) }
        ensures place { IfOk result (λ x. x.1 ≡ up at 2 + 2) }
    {
        let (number, after) = self.half_word(at)?;
        if number < count {
            return Ok((i64::from(number), after));
        }
        let departure = match selected_arm(arms, i64::from(number)) {
            None => Departure::Tag(after - 2),
            Some(_) => Departure::Text(after - 2),
        };
        Err(ReadError::Departs(departure))
    }

    fn tag(&self, kind: &Shape, arms: &[Arm], at: usize) -> Result<(i64, usize), ReadError>
        ensures exact { Gives (λ (x : ℤ × ℕ). x) result (tag_at self.now.order self.now.octets.now (form kind.now) (arms_of arms.now) at) }
        ensures place { IfOk result (λ x. x.1 ≡ up at (tag_size (form kind.now)) + tag_size (form kind.now)) }
    {
        match kind {
            Shape::Bool => {
                let (octet, after) = self.octet(at)?;
                Ok((i64::from(octet != 0), after))
            }
            Shape::Char => {
                let (octet, after) = self.octet(at)?;
                Ok((i64::from(octet), after))
            }
            Shape::Int(size) => self.signed(*size, at),
            Shape::Uint(size) => self.unsigned_tag(*size, at),
            Shape::Enum(count) => self.name_tag(*count, arms, at),
            _ => Err(ReadError::Departs(Departure::Tag(at))),
        }
    }

    /// The tag of a union, and the index after it.
    ///
    /// # Errors
    ///
    /// `Short` where the octets end before the tag's last. `Tag` where it is no tag of the union's kind; a number
    /// that is no name, and for which an arm stands, is a `Text` instead.
    #[inline(never)]
    pub fn union_tag(
        &self,
        union: &Shape,
        kind: &Shape,
        arms: &[Arm],
        at: usize,
    ) -> Result<(i64, usize), ReadError>
        ensures exact { Gives (λ (x : ℤ × ℕ). x) result (tag_at self.now.order self.now.octets.now (form kind.now) (arms_of arms.now) (in_place (types_in self.now) (form union.now) at)) }
        ensures place { IfOk result (λ x. x.1 ≡ up (in_place (types_in self.now) (form union.now) at) (tag_size (form kind.now)) + tag_size (form kind.now)) }
    {
        if at > self.octets.len() {
            // No value begins behind the last octet.
            return Err(ReadError::Memory);
        }
        self.tag(kind, arms, aligned(at, self.table.align(union)))
    }

    // The max_count in front of a structure, unless it is that of a greater one.
    fn opened(
        &self,
        structure: &Shape,
        moved: Option<u32>,
        at: usize,
    ) -> Result<(Option<u32>, usize), ReadError>
        ensures { (ss : _) → form structure.now ≡ OfStruct ss → Gives (λ (x : Option ℕ × ℕ). x) result (opened_at self.now.order self.now.octets.now (types_in self.now) ss moved at) }
    {
        if moved.is_some() {
            return Ok((moved, at));
        }
        if !self.table.ends_open(structure) {
            return Ok((None, at));
        }
        let (most, after) = self.word(at)?;
        Ok((Some(most), after))
    }

    // Where a structure begins.
    fn begun(
        &self,
        structure: &Shape,
        own: Option<u32>,
        at: usize,
    ) -> Result<(Option<u32>, usize), ReadError>
        ensures { Gives (λ (x : Option ℕ × ℕ). x) result (begun self.now.order self.now.octets.now own (in_place (types_in self.now) (form structure.now) at)) }
    {
        let len = self.octets.len();
        let align = self.table.align(structure);
        if at > len {
            return Err(ReadError::Departs(Departure::Short(len)));
        }
        let place = aligned(at, align);
        if place > len {
            return Err(ReadError::Departs(Departure::Short(len)));
        }
        Ok((own, place))
    }

    /// The max_count in front of a structure, and where the structure begins.
    ///
    /// # Errors
    ///
    /// `Short` where the octets end before the count's last, or before the structure begins.
    #[inline(never)]
    pub fn begin(
        &self,
        structure: &Shape,
        moved: Option<u32>,
        at: usize,
    ) -> Result<(Option<u32>, usize), ReadError>
        ensures { (ss : _) → form structure.now ≡ OfStruct ss → Gives (λ (x : Option ℕ × ℕ). x) result (struct_at self.now.order self.now.octets.now (types_in self.now) ss moved at) }
    {
        let (own, after) = self.opened(structure, moved, at)?;
        self.begun(structure, own, after)
    }

    /// What the name of a type stands for.
    pub fn named(&self, number: usize) -> Option<&'a Shape>
        ensures { MatchOption result (slice_get (types_in self.now) number ≡ None) (λ s. slice_get (types_in self.now) number ≡ Some (form s.now)) }
    {
        self.table.types().get(number)
    }
}
