//! The table.
ghost use Rattle.std.specs.Prelude.{◌≡◌, map};
ghost use Rattle.ndr_value.specs.Forms.{types_of};
ghost use Rattle.ndr_table.specs.Aligned.{alignments};
ghost use Rattle.ndr_table.specs.Nested.{IsShallow};
ghost use Rattle.ndr_table.specs.Sound.{IsSound};
ghost use Rattle.ndr_table.specs.Tails.{tails_of};
ghost use Rattle.ndr_table.specs.Tables.{IsTable, op_form};

use crate::align::{align_by, aligns_of};
use crate::copies;
use crate::nesting::{depths_of, ops_few, types_reach};
use crate::operation::{HandleUses, Op, Ops, Uses};
use crate::sound::{each_uses, ops_sound, types_sound};
use crate::tails::{self, Tails};
use ndr_value::{Shape, Shapes, copy_shapes};
use rpc_base::{NoMemory, Octets, SyntaxId};
use std::alloc::Global;

/// An interface as lists. Its types are its structures and unions; a type holds types of lesser
/// numbers alone, but for what stands behind pointers.
#[derive(Drop)]
pub struct Table {
    id: SyntaxId,
    types: Shapes,
    ops: Ops,
    uses: Uses,
    aligns: Octets,
    tails: Tails,
    ghost whole: { IsTable (types_of types.items) (map op_form ops.items) uses.items },
    ghost aligned: { aligns ≡ alignments (types_of types.items) },
    ghost ended: { tails ≡ tails_of (types_of types.items) },
    ghost shallow: { IsShallow (types_of types.items) (map op_form ops.items) },
    ghost sound: { IsSound (types_of types.items) (map op_form ops.items) uses.items },
}

impl Table {
    ghost use Rattle.std.specs.Prelude.{◌≤◌, length, slice_get, true, IfOk, MatchOption, Some};
    ghost use Rattle.ndr_value.specs.Forms.{form};
    ghost use Rattle.ndr_table.specs.Aligned.{align_of};
    ghost use Rattle.ndr_table.specs.Ordered.{is_size, ordered};
    ghost use Rattle.ndr_table.specs.Shown.{shown};
    ghost use Rattle.ndr_table.specs.Nested.{IsShallow};
    ghost use Rattle.ndr_table.specs.Sound.{IsSound};
    ghost use Rattle.ndr_table.specs.Tails as ends;

    /// The table of these types and operations, with the handles of each operation.
    ///
    /// # Errors
    ///
    /// `NoMemory` where there is no memory for the alignments of the types, or a type, a parameter, a
    /// result or what one of their pointers points to nests by value more than `MOST_LEVELS` levels, or
    /// the shapes or the handles aren't those of an interface that keeps the rules.
    pub fn of(
        alloc: Global,
        id: SyntaxId,
        types: Shapes,
        ops: Ops,
        uses: Uses,
    ) -> Result<Table, NoMemory>
        requires { IsTable (types_of types.items) (map op_form ops.items) uses.items }
        ensures { IfOk result (λ table. shown table ≡ record { id = id; types = types_of types.items; ops = map op_form ops.items; uses = uses.items }) }
    {
        let depths = depths_of(alloc, &types)?;
        if !types_reach(&types, depths.as_slice()) || !ops_few(&ops, depths.as_slice()) {
            return Err(NoMemory);
        }
        if !types_sound(&types) || !ops_sound(&ops) || !each_uses(&ops, &uses) {
            return Err(NoMemory);
        }
        let aligns = aligns_of(alloc, &types)?;
        let tails = tails::tails_of(alloc, &types)?;
        Ok(Table {
            id,
            types,
            ops,
            uses,
            aligns,
            tails,
        })
    }

    /// An equal table.
    ///
    /// # Errors
    ///
    /// `NoMemory` where there is no memory for it.
    pub fn copy(&self, alloc: Global) -> Result<Table, NoMemory>
        ensures { IfOk result (λ copy. shown copy ≡ shown self.now) }
    {
        let types = copy_shapes(alloc, &self.types)?;
        let ops = copies::ops(alloc, &self.ops)?;
        let uses = copies::uses(alloc, &self.uses)?;
        let aligns = self.aligns.copy(alloc)?;
        let tails = self.tails.copy(alloc)?;
        Ok(Table {
            id: self.id,
            types,
            ops,
            uses,
            aligns,
            tails,
        })
    }

    /// The interface's identifier and version.
    pub fn syntax(&self) -> SyntaxId
        ensures { result ≡ (shown self.now).id }
    {
        self.id
    }

    /// The number of operations.
    pub fn op_count(&self) -> u16
        ensures { result ≡ length (shown self.now).ops }
    {
        self.ops.len() as u16
    }

    /// The structures and unions, by number.
    pub fn types(&self) -> &Shapes
        ensures types { types_of result.now.items ≡ (shown self.now).types }
        ensures ordered { ordered (shown self.now).types ≡ true }
    {
        &self.types
    }

    /// The operation of that number. None where there are no more than so many.
    pub fn op(&self, number: u16) -> Option<&Op>
        ensures { MatchOption result (length (shown self.now).ops ≤ number) (λ op. slice_get (shown self.now).ops number ≡ Some (op_form op.now)) }
    {
        self.ops.get(number as usize)
    }

    /// What a shape that names types of the table asks of the structure or union that holds it, in
    /// octets: the largest of these is that one's alignment. A structure or union begins at a multiple
    /// of its own (C706, "Transfer Syntax NDR").
    #[tactic(auto, using(crate::proofs::Sizes::sizes))]
    pub fn align(&self, shape: &Shape) -> u8
        ensures octets { is_size result ≡ true }
        ensures exact { result ≡ align_of (alignments (shown self.now).types) (form shape.now) }
    {
        align_by(shape, self.aligns.as_slice())
    }

    /// Whether a shape that names types of the table ends in a conformant array or text, itself or by
    /// its last members. The max_count of one stands in front of the outermost structure (C706,
    /// "Transfer Syntax NDR").
    pub fn ends_open(&self, shape: &Shape) -> bool
        ensures { result ≡ ends.ends_open (ends.tails_of (shown self.now).types) (form shape.now) }
    {
        tails::ends_by(shape, self.tails.as_slice())
    }

    /// The handles of the operation of that number. None where there are no more than so many
    /// operations.
    pub fn handle_uses(&self, number: u16) -> Option<&HandleUses>
        ensures { MatchOption result (length (shown self.now).ops ≤ number) (λ uses. slice_get (shown self.now).uses number ≡ Some uses.now) }
    {
        self.uses.get(number as usize)
    }

    /// What holds of every table: the names in its types and operations are of its types.
    pub fn is_whole(&self)
        ensures { IsTable (shown self.now).types (shown self.now).ops (shown self.now).uses }
    {}

    /// What holds of every table: types, parameters, results and what their pointers point to nest by
    /// value `MOST_LEVELS` levels at most.
    pub fn is_shallow(&self)
        ensures { IsShallow (shown self.now).types (shown self.now).ops }
    {}

    /// What holds of every table: each value of its shapes has octets, each union a tag, handles stand
    /// as parameters alone, and the uses of each operation are those of its parameters.
    pub fn is_sound(&self)
        ensures { IsSound (shown self.now).types (shown self.now).ops (shown self.now).uses }
    {}
}
