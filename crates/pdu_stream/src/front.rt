//! The PDU at the front of octets.
ghost use Rattle.pdu_stream.specs.Cuts.{IsFront};

use pdu_codec::{Pdu, PduFault, read_head, read_pdu};
use std::alloc::Global;

/// The PDU at the front and how many octets it has, or none where the octets end within a header, or within a
/// PDU whose header has no fault.
///
/// # Errors
///
/// The fault of the header, as soon as its octets are there, or of the body, once the PDU's are.
pub fn front(alloc: Global, octets: &[u8]) -> Result<Option<(Pdu, usize)>, PduFault>
    ensures { IsFront octets.now result }
{
    let Some(header) = octets.first_chunk() else {
        return Ok(None);
    };
    let size = read_head(*header)?.length as usize;
    if octets.len() < size {
        return Ok(None);
    }
    let (whole, _) = octets.split_at(size);
    let pdu = read_pdu(alloc, whole)?;
    Ok(Some((pdu, size)))
}
