//! A value with its referents.
ghost use Rattle.std.specs.Prelude.{[], map};
ghost use Rattle.ndr_model.specs.Written as spec;
ghost use Rattle.ndr_write.specs.Views.{behind_of, pending_flat, under, Adds};

use crate::bytes::flat_byte;
use crate::flat::flat_value;
use crate::state::{Out, Pending, Pointed, Writer};
use rpc_base::NoMemory;

// Types, parameters and results nest by value 256 levels at most, so there are fewer constructs and
// names between two pointers.
const DEEP: u32 = 1024;

fn flat_pending<'a>(
    writer: &Writer<'a>,
    pending: Pending<'a>,
    out: &mut Out,
    behind: &mut Vec<Pending<'a>>,
) -> Result<(), NoMemory>
    ensures { Adds result out.old behind.old.items out.new behind.new.items (pending_flat writer.now (behind_of pending.entry)) }
{
    match pending.what {
        Pointed::Value(value) => flat_value(
            DEEP,
            writer,
            pending.body,
            false,
            pending.shape,
            value,
            out,
            behind,
        ),
        Pointed::Byte(octet) => flat_byte(
            DEEP,
            writer,
            pending.body,
            pending.shape,
            octet,
            out,
            behind,
        ),
    }
}

/// Adds a value with what its pointers point to, on at most so many levels of pointers.
#[tactic(auto, unfolding(ndr_model::specs::Written::whole))]
#[cycle(whole)]
pub(crate) fn put_whole<'a>(
    levels: u16,
    writer: &Writer<'a>,
    pending: Pending<'a>,
    out: &mut Out,
) -> Result<(), NoMemory>
    ensures { Adds result out.old [] out.new [] (under writer.now spec.whole levels (behind_of pending.entry)) }
{
    if levels == 0 {
        return Ok(());
    }
    let mut behind = Vec::new(writer.alloc);
    flat_pending(writer, pending, out, &mut behind)?;
    put_behind(levels - 1, writer, behind.as_slice(), out)
}

// What pointers point to, in the order of the pointers.
#[cycle(whole)]
fn put_behind<'a>(
    levels: u16,
    writer: &Writer<'a>,
    behind: &[Pending<'a>],
    out: &mut Out,
) -> Result<(), NoMemory>
    ensures { Adds result out.old [] out.new [] (under writer.now spec.each_behind (under writer.now spec.whole levels) (map behind_of behind.now)) }
{
    for pending in behind {
        put_whole(levels, writer, *pending, out)?;
    }
    Ok(())
}
