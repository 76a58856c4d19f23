//! Answers that are printed and counted.
ghost use Rattle.std.specs.Prelude.{◌≡◌, ◌<◌, ◌^◌, OnOk};
ghost use Rattle.std.specs.Option.{option_copied};
ghost use Rattle.desk_counts.specs.Numbers.{stopped, with_more};
ghost use Rattle.server_counts.specs.Pieces.{ArePdus};
ghost use Rattle.replay_events.specs.Numbered.{FitsStatus};
ghost use Rattle.replay_events.specs.Answers.{act_octets_of, Answers};

use crate::print::print_pdus;
use conn_core::Act;
use desk_counts::Counted;
use handle_model::Said;
use rpc_base::{NoMemory, Status};
use server_counts::NewPackets;
use std::alloc::Global;

/// A number as far as 32 bits tell it.
fn shown(number: u64) -> u32
    ensures { result ≡ stopped number }
{
    number.min(u64::from(u32::MAX)) as u32
}

/// Adds packets that came, and so many that were answered.
pub fn count(totals: &mut Counted, new: NewPackets, answered: u64)
    ensures { totals.new ≡ with_more totals.old new.calls new.packets answered }
{
    totals.add(shown(new.calls), shown(new.packets), shown(answered));
}

/// Prints and counts what is answered on the connection of that name.
///
/// # Errors
///
/// `NoMemory` where there is no memory for the lines.
pub fn answer(
    alloc: Global,
    name: u32,
    octets: &[u8],
    totals: &mut Counted,
    out: &mut Vec<u8>,
) -> Result<(), NoMemory>
    requires { ArePdus octets.now }
    ensures { OnOk result (Answers name octets.now totals.old out.old.items totals.new out.new.items) }
{
    let answered = print_pdus(alloc, name, octets, out)?;
    let none = NewPackets {
        packets: 0,
        calls: 0,
    };
    count(totals, none, answered);
    Ok(())
}

/// The octets of an act.
pub fn octets_of(done: &Option<Act>) -> &[u8]
    ensures { result.now ≡ act_octets_of done.now }
{
    match done {
        Some(Act::Answer(octets)) => octets.as_slice(),
        Some(Act::Close(octets, _)) => octets.as_slice(),
        _ => &[],
    }
}

fn code_of(status: &Status) -> u32
    ensures code { result ≡ status.now.0 }
    ensures fits { result < 2 ^ 32 }
{
    status.0
}

/// The status of a fault.
pub fn status_of(said: Option<&Said>) -> Option<u32>
    ensures { FitsStatus (option_copied said.entry) }
{
    match said {
        Some(Said::Fault(status)) => Some(code_of(status)),
        _ => None,
    }
}
