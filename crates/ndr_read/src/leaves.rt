//! Values without parts. Each is read apart from the walk, so that the walk keeps nothing of it on the
//! stack.
ghost use Rattle.std.specs.Prelude.{◌≡◌, ◌==◌, ℕ, not};
ghost use Rattle.ndr_value.specs.Values.{VBool, VByte, VChar, VInt, VUint};
ghost use Rattle.ndr_scalars.specs.Scalars.{signed};
ghost use Rattle.ndr_model.specs.Places.{Last};
ghost use Rattle.ndr_model.specs.Build.{built_number};
ghost use Rattle.ndr_read.specs.Pieces.{wire_build, name_build, chars_build};
ghost use Rattle.ndr_pointers.specs.Views.{over};
ghost use Rattle.ndr_read.specs.Views.{cursor_of, BuildsApart};

use crate::state::Flat;
use ndr_pointers::{ReadError, Reader};
use ndr_value::Value;
use rpc_base::Octets;

#[inline(never)]
pub(crate) fn build_bool(reader: &Reader<'_>, flat: &mut Flat) -> Result<Value, ReadError>
    ensures { (q : Last) → BuildsApart result flat.new q (over reader.now built_number 1 (λ (n : ℕ). VBool (not (n == 0))) (cursor_of flat.old) q) }
{
    let (octet, after) = reader.octet(flat.at)?;
    flat.at = after;
    Ok(Value::Bool(octet != 0))
}

#[inline(never)]
pub(crate) fn build_byte(reader: &Reader<'_>, flat: &mut Flat) -> Result<Value, ReadError>
    ensures { (q : Last) → BuildsApart result flat.new q (over reader.now built_number 1 VByte (cursor_of flat.old) q) }
{
    let (octet, after) = reader.octet(flat.at)?;
    flat.at = after;
    Ok(Value::Byte(octet))
}

#[inline(never)]
pub(crate) fn build_char(reader: &Reader<'_>, flat: &mut Flat) -> Result<Value, ReadError>
    ensures { (q : Last) → BuildsApart result flat.new q (over reader.now built_number 1 VChar (cursor_of flat.old) q) }
{
    let (octet, after) = reader.octet(flat.at)?;
    flat.at = after;
    Ok(Value::Char(octet))
}

#[inline(never)]
pub(crate) fn build_int(reader: &Reader<'_>, size: u8, flat: &mut Flat) -> Result<Value, ReadError>
    ensures { (q : Last) → BuildsApart result flat.new q (over reader.now built_number size (λ (n : ℕ). VInt (signed size n)) (cursor_of flat.old) q) }
{
    let (number, after) = reader.signed(size, flat.at)?;
    flat.at = after;
    Ok(Value::Int(number))
}

#[inline(never)]
pub(crate) fn build_uint(reader: &Reader<'_>, size: u8, flat: &mut Flat) -> Result<Value, ReadError>
    ensures { (q : Last) → BuildsApart result flat.new q (over reader.now built_number size VUint (cursor_of flat.old) q) }
{
    let (number, after) = reader.number(size, flat.at)?;
    flat.at = after;
    Ok(Value::Uint(number))
}

#[inline(never)]
pub(crate) fn build_enum(
    reader: &Reader<'_>,
    count: u16,
    flat: &mut Flat,
) -> Result<Value, ReadError>
    ensures { (q : Last) → BuildsApart result flat.new q (name_build reader.now.order reader.now.octets.now count (cursor_of flat.old) q) }
{
    let (name, after) = reader.name(count, flat.at)?;
    flat.at = after;
    Ok(Value::Enum(name))
}

#[inline(never)]
pub(crate) fn build_handle(reader: &Reader<'_>, flat: &mut Flat) -> Result<Value, ReadError>
    ensures { (q : Last) → BuildsApart result flat.new q (wire_build reader.now.order reader.now.octets.now (cursor_of flat.old) q) }
{
    let (_, after) = reader.wire(flat.at)?;
    if flat.handles > 255 {
        return Err(ReadError::Memory);
    }
    let number = flat.handles as u8;
    flat.at = after;
    flat.handles += 1;
    Ok(Value::Handle(number))
}

#[inline(never)]
pub(crate) fn build_text(
    reader: &Reader<'_>,
    size: Option<u32>,
    moved: Option<u32>,
    flat: &mut Flat,
) -> Result<Value, ReadError>
    ensures { (q : Last) → BuildsApart result flat.new q (chars_build reader.now.order reader.now.octets.now size moved (cursor_of flat.old) q) }
{
    let (found, after) = reader.chars(size, moved, flat.at)?;
    let text = Vec::from_slice(reader.alloc, found)?;
    flat.at = after;
    Ok(Value::Text(Octets::from_vec(text)))
}
