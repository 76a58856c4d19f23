//! Stub data in the pieces of its fragments.
ghost use Rattle.std.specs.Prelude.{◌≡◌, ◌+◌, ◌≤◌};
ghost use Rattle.pdu_stream.specs.Pieces.{piece_size, piece_at};

/// The start and the length of the piece of a stub that fragment `k`, from 0, has, where there is one,
/// given the stub's length, the most octets of a fragment and those of its PDU before the stub. Each piece
/// but the last has `(most - head) / 8 * 8` octets, and the last has no more. An empty stub is one fragment.
/// It takes no memory (C706, "Connection-oriented RPC PDUs", fragmentation and reassembly).
pub fn piece(length: usize, most: u16, head: u16, k: usize) -> Option<(usize, usize)>
    requires { head + 8 ≤ most }
    ensures { result ≡ piece_at (piece_size most head) length k }
{
    let size = ((most - head) / 8 * 8) as usize;
    let start = k.checked_mul(size)?;
    if k > 0 && start >= length {
        return None;
    }
    Some((start, size.min(length - start)))
}
