//! One fragment after others.
ghost use Rattle.std.specs.Prelude.{◌≡◌, Some, None};
ghost use Rattle.pdu_stream.specs.Fragments.{has_flag, JoinsTo};

use crate::{JoinFault, Joined};
use pdu_codec::RequestBody;
use pdu_codec::flags::{FIRST_FRAG, MAYBE, PENDING_CANCEL};
use rpc_base::Order;

/// Most octets of a stub: 64 MiB.
pub const MOST_STUB: usize = 0x400_0000;

pub fn has_flag(flags: u8, flag: u8) -> bool
    ensures { result ≡ has_flag flag flags }
{
    flags & flag != 0
}

/// The request so far with a further fragment.
///
/// # Errors
///
/// The first of `FragOrder`, `FragDrep` and `TooLong` that is so; `Memory` where there is no memory
/// for the stub.
pub fn with_fragment(
    run: Option<Joined>,
    order: Order,
    flags: u8,
    call_id: u32,
    part: RequestBody,
) -> Result<Joined, JoinFault>
    ensures { JoinsTo run (record { order = order; flags = flags; call_id = call_id; part = part }) result }
{
    match run {
        None => first_fragment(order, flags, call_id, part),
        Some(joined) => later_fragment(joined, order, flags, call_id, part),
    }
}

#[tactic(auto, using(crate::proofs::Joins::joined_alone))]
fn first_fragment(
    order: Order,
    flags: u8,
    call_id: u32,
    part: RequestBody,
) -> Result<Joined, JoinFault>
    ensures { JoinsTo None (record { order = order; flags = flags; call_id = call_id; part = part }) result }
{
    if !has_flag(flags, FIRST_FRAG) {
        return Err(JoinFault::FragOrder);
    }
    if part.stub.len() > MOST_STUB {
        return Err(JoinFault::TooLong);
    }
    Ok(Joined {
        call_id,
        order,
        context: part.context,
        op: part.op,
        maybe: has_flag(flags, MAYBE),
        cancel: has_flag(flags, PENDING_CANCEL),
        stub: part.stub,
    })
}

fn later_fragment(
    mut joined: Joined,
    order: Order,
    flags: u8,
    call_id: u32,
    part: RequestBody,
) -> Result<Joined, JoinFault>
    ensures { JoinsTo (Some joined) (record { order = order; flags = flags; call_id = call_id; part = part }) result }
{
    if has_flag(flags, FIRST_FRAG)
        || call_id != joined.call_id
        || part.context != joined.context
        || part.op != joined.op
    {
        return Err(JoinFault::FragOrder);
    }
    if order != joined.order {
        return Err(JoinFault::FragDrep);
    }
    if joined.stub.len().saturating_add(part.stub.len()) > MOST_STUB {
        return Err(JoinFault::TooLong);
    }
    joined.stub.append(part.stub.as_slice())?;
    joined.cancel |= has_flag(flags, PENDING_CANCEL);
    Ok(joined)
}
