//! The numbers of calls and packets of all connections.
ghost use Rattle.std.specs.Prelude.{◌≤◌, length};
ghost use Rattle.server_command.specs.Sums.{AreSums};

use rpc_outside::Link;
use server_counts::CountLink;
use server_rounds::Settled;

/// The numbers of the links, added up: calls in, calls out, packets in and packets out.
pub(crate) fn sums<K: Link>(finished: &[Settled<CountLink<K>>]) -> [u64; 4]
    requires { length finished.now ≤ 1000000 }
    ensures { AreSums K.shows finished.now result }
{
    let (mut calls_in, mut calls_out) = (0u64, 0u64);
    let (mut packets_in, mut packets_out) = (0u64, 0u64);
    for settled in finished {
        let counts = settled.link.counts();
        calls_in += u64::from(counts[0]);
        calls_out += u64::from(counts[1]);
        packets_in += u64::from(counts[2]);
        packets_out += u64::from(counts[3]);
    }
    [calls_in, calls_out, packets_in, packets_out]
}
