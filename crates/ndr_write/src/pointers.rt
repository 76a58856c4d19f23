//! Pointers.
ghost use Rattle.std.specs.Prelude.{◌≡◌, ◌++◌, OnOk, map, true, false, slice_get, unwrap_or, MatchOption, Some, None};
ghost use Rattle.ndr_value.specs.Forms.{form};
ghost use Rattle.ndr_value.specs.Values.{val, vals, VFull};
ghost use Rattle.ndr_model.specs.Named.{nth};
ghost use Rattle.ndr_model.specs.Written as spec;
ghost use Rattle.ndr_model.specs.Pieces as pieces;
ghost use Rattle.ndr_write.specs.Views.{behind_of, pointed_of, octets_only, under, Adds, item_in};

use crate::numbers::{next_id, number as word};
use crate::state::{Out, Pending, Pointed, Writer};
use ndr_value::{Shape, Value};
use rpc_base::NoMemory;

/// A pointer that isn't null, to what isn't written yet.
pub(crate) fn point<'a>(
    writer: &Writer<'a>,
    pending: Pending<'a>,
    out: &mut Out,
    behind: &mut Vec<Pending<'a>>,
) -> Result<(), NoMemory>
    ensures { Adds result out.old behind.old.items out.new behind.new.items (under writer.now spec.pointing (vals pending.entry.body.now) (form pending.entry.shape.now) (pointed_of pending.entry.what)) }
{
    if out.count == u32::MAX {
        return Err(NoMemory);
    }
    word(
        writer.order,
        4,
        u64::from(next_id(out.count)),
        &mut out.octets,
    )?;
    behind.push(pending)?;
    out.count += 1;
    Ok(())
}

fn null(writer: &Writer<'_>, out: &mut Out) -> Result<(), NoMemory>
    ensures { (b : _) → Adds result out.old b out.new b (octets_only (pieces.number writer.now.order 4 0)) }
{
    word(writer.order, 4, 0, &mut out.octets)
}

pub(crate) fn put_unique<'a>(
    writer: &Writer<'a>,
    body: &'a [Value],
    inner: &'a Shape,
    value: &'a Value,
    out: &mut Out,
    behind: &mut Vec<Pending<'a>>,
) -> Result<(), NoMemory>
    ensures { Adds result out.old behind.old.items out.new behind.new.items (under writer.now spec.unique_piece (vals body.now) (form inner.now) (val value.now)) }
{
    match value {
        Value::Ptr(held) => match held {
            None => null(writer, out),
            Some(pointed) => {
                let pending = Pending {
                    body,
                    shape: inner,
                    what: Pointed::Value(pointed),
                };
                point(writer, pending, out, behind)
            }
        },
        _ => Ok(()),
    }
}

// The value at that place.
fn value_at(values: &[Value], index: usize) -> Option<&Value>
    ensures { MatchOption result (nth (vals values.now) index ≡ None) (λ v. nth (vals values.now) index ≡ Some (val v.now)) }
{
    match values.get(index) {
        None => None,
        Some(value) => Some(value),
    }
}

// The item of the heap of that number.
fn item_at<'a>(writer: &Writer<'a>, number: u32) -> Option<&'a Value>
    ensures { MatchOption result (item_in writer.now number ≡ None) (λ v. item_in writer.now number ≡ Some (val v.now)) }
{
    value_at(writer.call.said.heap.as_slice(), number as usize)
}

// The item of a full pointer that is the first to lead there.
fn put_behind<'a>(
    writer: &Writer<'a>,
    body: &'a [Value],
    inner: &'a Shape,
    number: u32,
    behind: &mut Vec<Pending<'a>>,
) -> Result<(), NoMemory>
    ensures { OnOk result (map behind_of behind.new.items ≡ map behind_of behind.old.items ++ under writer.now spec.item_behind (vals body.now) (form inner.now) (item_in writer.now number)) }
{
    match item_at(writer, number) {
        None => Ok(()),
        Some(value) => {
            let pending = Pending {
                body,
                shape: inner,
                what: Pointed::Value(value),
            };
            behind.push(pending)?;
            Ok(())
        }
    }
}

// A full pointer that is the first to lead to its item.
fn put_new<'a>(
    writer: &Writer<'a>,
    body: &'a [Value],
    inner: &'a Shape,
    number: u32,
    out: &mut Out,
    behind: &mut Vec<Pending<'a>>,
) -> Result<(), NoMemory>
    ensures { Adds result out.old behind.old.items out.new behind.new.items (under writer.now spec.item_piece true (vals body.now) (form inner.now) number) }
{
    if out.count == u32::MAX {
        return Err(NoMemory);
    }
    let id = next_id(out.count);
    word(writer.order, 4, u64::from(id), &mut out.octets)?;
    put_behind(writer, body, inner, number, behind)?;
    out.items.push(id)?;
    out.count += 1;
    Ok(())
}

// The id that the item of that number has.
fn id_of(out: &Out, number: u32) -> u32
    ensures { result ≡ unwrap_or (slice_get out.now.items.items number) 0 }
{
    match out.items.get(number as usize) {
        None => 0,
        Some(id) => *id,
    }
}

// A full pointer to an item that another one leads to.
fn put_again(writer: &Writer<'_>, number: u32, out: &mut Out) -> Result<(), NoMemory>
    ensures { (b : _) (body : _) (s : _) → Adds result out.old b out.new b (under writer.now spec.item_piece false body s number) }
{
    let id = id_of(out, number);
    word(writer.order, 4, u64::from(id), &mut out.octets)
}

fn put_item<'a>(
    writer: &Writer<'a>,
    body: &'a [Value],
    inner: &'a Shape,
    number: u32,
    out: &mut Out,
    behind: &mut Vec<Pending<'a>>,
) -> Result<(), NoMemory>
    ensures { Adds result out.old behind.old.items out.new behind.new.items (under writer.now spec.full_piece (vals body.now) (form inner.now) (VFull (Some number))) }
{
    if number as usize == out.items.len() {
        return put_new(writer, body, inner, number, out, behind);
    }
    put_again(writer, number, out)
}

pub(crate) fn put_full<'a>(
    writer: &Writer<'a>,
    body: &'a [Value],
    inner: &'a Shape,
    value: &'a Value,
    out: &mut Out,
    behind: &mut Vec<Pending<'a>>,
) -> Result<(), NoMemory>
    ensures { Adds result out.old behind.old.items out.new behind.new.items (under writer.now spec.full_piece (vals body.now) (form inner.now) (val value.now)) }
{
    match value {
        Value::Full(item) => match item {
            None => null(writer, out),
            Some(number) => put_item(writer, body, inner, *number, out, behind),
        },
        _ => Ok(()),
    }
}
