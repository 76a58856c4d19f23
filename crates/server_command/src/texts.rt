//! Lines of connections.
ghost use Rattle.std.specs.Prelude.{◌≡◌, ◌++◌, OnOk, OnErr, slice_index};
ghost use Rattle.server_command.specs.Texts as spec;

use base_words::{put, put_decimal};
use rpc_base::NoMemory;
use server_ends::Ending;
use std::alloc::Global;

#[tactic(auto, unfolding(crate::specs::Texts::ending_text))]
fn put_ending(alloc: Global, why: Ending, into: &mut Vec<u8>) -> Result<(), NoMemory>
    ensures { OnOk result (into.new.items ≡ into.old.items ++ spec.ending_text why) }
{
    match why {
        Ending::Closed => put(b"closed", into),
        Ending::Cut(octets) => {
            put(b"cut ", into)?;
            put_decimal(alloc, octets as u64, into)
        }
        Ending::LinkFault => put(b"link", into),
        Ending::Refused(_) => put(b"refused", into),
        Ending::Memory => put(b"memory", into),
    }
}

#[tactic(auto, unfolding(crate::specs::Texts::first_word))]
fn put_first_word(into: &mut Vec<u8>) -> Result<(), NoMemory>
    ensures { OnOk result (into.new.items ≡ into.old.items ++ spec.first_word) }
{
    put(b"connection ", into)
}

#[tactic(auto, unfolding(crate::specs::Texts::connection_text))]
fn put_connection(
    alloc: Global,
    number: u64,
    why: Ending,
    into: &mut Vec<u8>,
) -> Result<(), NoMemory>
    ensures { OnOk result (into.new.items ≡ into.old.items ++ spec.connection_text number why) }
{
    put_first_word(into)?;
    put_decimal(alloc, number, into)?;
    put(b" ", into)?;
    put_ending(alloc, why, into)?;
    put(b"\n", into)
}

/// Adds the line of a connection: its number in the order of the door, from 1, and why it ended.
///
/// # Errors
///
/// `NoMemory` where there is no memory for the line; nothing was added.
pub fn connection_line(
    alloc: Global,
    number: u64,
    why: Ending,
    into: &mut Vec<u8>,
) -> Result<(), NoMemory>
    ensures ok { OnOk result (into.new.items ≡ into.old.items ++ spec.connection_text number why) }
    ensures err { OnErr result (into.new.items ≡ into.old.items) }
{
    let mut line = Vec::new(alloc);
    put_connection(alloc, number, why, &mut line)?;
    put(line.as_slice(), into)
}

#[tactic(auto, unfolding(crate::specs::Texts::stats_text))]
fn put_stats(alloc: Global, stats: [u64; 4], into: &mut Vec<u8>) -> Result<(), NoMemory>
    ensures { OnOk result (into.new.items ≡ into.old.items ++ spec.stats_text (slice_index stats 0) (slice_index stats 1) (slice_index stats 2) (slice_index stats 3)) }
{
    let [calls_in, calls_out, packets_in, packets_out] = stats;
    put(b"stats ", into)?;
    put_decimal(alloc, calls_in, into)?;
    put(b" ", into)?;
    put_decimal(alloc, calls_out, into)?;
    put(b" ", into)?;
    put_decimal(alloc, packets_in, into)?;
    put(b" ", into)?;
    put_decimal(alloc, packets_out, into)?;
    put(b"\n", into)
}

/// Adds the line behind those of the connections: calls in, calls out, packets in and packets out.
///
/// # Errors
///
/// `NoMemory` where there is no memory for the line; nothing was added.
pub fn stats_line(alloc: Global, stats: [u64; 4], into: &mut Vec<u8>) -> Result<(), NoMemory>
    ensures ok { OnOk result (into.new.items ≡ into.old.items ++ spec.stats_text (slice_index stats 0) (slice_index stats 1) (slice_index stats 2) (slice_index stats 3)) }
    ensures err { OnErr result (into.new.items ≡ into.old.items) }
{
    let mut line = Vec::new(alloc);
    put_stats(alloc, stats, &mut line)?;
    put(line.as_slice(), into)
}
