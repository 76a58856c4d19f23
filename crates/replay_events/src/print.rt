//! Answered PDUs as lines.
ghost use Rattle.std.specs.Prelude.{◌≡◌, ◌++◌, IfOk, OnOk};
ghost use Rattle.replay_world.specs.Worlds.Printed.{Answered};
ghost use Rattle.replay_world.specs.Printing.{printed_text};
ghost use Rattle.server_counts.specs.Pieces.{ArePdus, BeginWithPdu, IsFirstPdu};
ghost use Rattle.replay_events.specs.Prints.{Prints};

use base_words::{put, put_decimal, put_hex};
use pdu_codec::read_head;
use rpc_base::NoMemory;
use std::alloc::Global;

/// Adds a line for each PDU of the octets, as answered on the connection of that name, and answers how many there are.
/// Linear in the octets.
///
/// # Errors
///
/// `NoMemory` where there is no memory for the lines; some of them may have been added.
pub fn print_pdus(
    alloc: Global,
    name: u32,
    octets: &[u8],
    out: &mut Vec<u8>,
) -> Result<u64, NoMemory>
    requires { ArePdus octets.now }
    ensures { IfOk result (λ count. Prints name octets.now out.old.items count out.new.items) }
{
    let mut left = octets;
    let mut count = 0;
    while !left.is_empty() {
        let (piece, others) = left.split_at(first_size(left));
        print_line(alloc, name, piece, out)?;
        count += 1;
        left = others;
    }
    Ok(count)
}

/// How many octets the PDU in front has.
fn first_size(octets: &[u8]) -> usize
    requires { BeginWithPdu octets.now }
    ensures { IsFirstPdu octets.now result }
{
    let Some(header) = octets.first_chunk() else {
        unreachable!()
    };
    match read_head(*header) {
        Ok(head) => head.length as usize,
        Err(_) => unreachable!(),
    }
}

#[tactic(auto, unfolding(replay_world::specs::Printing::printed_text))]
fn print_line(alloc: Global, name: u32, piece: &[u8], out: &mut Vec<u8>) -> Result<(), NoMemory>
    ensures { OnOk result (out.new.items ≡ out.old.items ++ printed_text (Answered name piece.now)) }
{
    put_decimal(alloc, u64::from(name), out)?;
    put(b" ", out)?;
    put_hex(alloc, piece, out)?;
    put(b"\n", out)
}
