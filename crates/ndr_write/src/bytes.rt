//! Arrays of octets.
ghost use Rattle.ndr_value.specs.Forms.{form, OfByte};
ghost use Rattle.ndr_value.specs.Values.{VByte, vals, bytes};
ghost use Rattle.ndr_model.specs.Pieces as pieces;
ghost use Rattle.ndr_model.specs.Written as spec;
ghost use Rattle.ndr_write.specs.Views.{octets_only, under, Adds, flat_of};

use crate::numbers::number;
use crate::pointers::point;
use crate::state::{Out, Pending, Pointed, Writer};
use ndr_value::{Shape, Value};
use rpc_base::NoMemory;

fn put_octet(writer: &Writer<'_>, octet: u8, out: &mut Out) -> Result<(), NoMemory>
    ensures { (b : _) → Adds result out.old b out.new b (octets_only (pieces.number writer.now.order 1 octet)) }
{
    number(writer.order, 1, u64::from(octet), &mut out.octets)
}

/// The flat part of a `Byte` value, by its octet.
#[tactic(auto, unfolding(ndr_model::specs::Written::flat))]
pub(crate) fn flat_byte<'a>(
    fuel: u32,
    writer: &Writer<'a>,
    body: &'a [Value],
    shape: &'a Shape,
    octet: u8,
    out: &mut Out,
    behind: &mut Vec<Pending<'a>>,
) -> Result<(), NoMemory>
    ensures { (moved : _) → Adds result out.old behind.old.items out.new behind.new.items (flat_of writer.now fuel (vals body.now) moved (form shape.now) (VByte octet)) }
{
    if fuel == 0 {
        return Ok(());
    }
    match shape {
        Shape::Byte => put_octet(writer, octet, out),
        Shape::Named(number, _) => match writer.named(*number) {
            None => Ok(()),
            Some(other) => flat_byte(fuel - 1, writer, body, other, octet, out, behind),
        },
        Shape::Ref(inner) => {
            let pending = Pending {
                body,
                shape: inner,
                what: Pointed::Byte(octet),
            };
            point(writer, pending, out, behind)
        }
        _ => Ok(()),
    }
}

// Each by itself.
fn put_each<'a>(
    fuel: u32,
    writer: &Writer<'a>,
    body: &'a [Value],
    inner: &'a Shape,
    octets: &[u8],
    out: &mut Out,
    behind: &mut Vec<Pending<'a>>,
) -> Result<(), NoMemory>
    ensures { Adds result out.old behind.old.items out.new behind.new.items (under writer.now spec.elements (flat_of writer.now fuel) (vals body.now) (form inner.now) (bytes octets.now)) }
{
    for octet in octets {
        flat_byte(fuel, writer, body, inner, *octet, out, behind)?;
    }
    Ok(())
}

// All at once.
fn put_all(fuel: u32, octets: &[u8], out: &mut Out) -> Result<(), NoMemory>
    ensures { (types : _) (order : _) (call : _) (body : _) (b : _) → Adds result out.old b out.new b (spec.elements types order call (spec.flat types order call fuel) body OfByte (bytes octets.now)) }
{
    if fuel == 0 {
        return Ok(());
    }
    out.octets.extend_from_slice(octets)?;
    Ok(())
}

/// The elements of an array of `Byte` values, by their octets.
pub(crate) fn flat_octets<'a>(
    fuel: u32,
    writer: &Writer<'a>,
    body: &'a [Value],
    inner: &'a Shape,
    octets: &[u8],
    out: &mut Out,
    behind: &mut Vec<Pending<'a>>,
) -> Result<(), NoMemory>
    ensures { Adds result out.old behind.old.items out.new behind.new.items (under writer.now spec.elements (flat_of writer.now fuel) (vals body.now) (form inner.now) (bytes octets.now)) }
{
    match inner {
        Shape::Byte => put_all(fuel, octets, out),
        _ => put_each(fuel, writer, body, inner, octets, out, behind),
    }
}
