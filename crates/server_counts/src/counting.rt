//! Counting the packets of two streams.
ghost use Rattle.std.specs.Prelude.{◌≡◌};
ghost use Rattle.desk_counts.specs.Numbers.{listed, stopped};
ghost use Rattle.server_counts.specs.Counting.{at_first, Takes, Puts};

use crate::Packets;
use desk_counts::{Counted, Stats, Tally};

/// What came from a peer and what was put on its link, as far as packets of it are whole, and how many they are.
#[derive(Debug, Drop)]
pub(crate) struct Counting {
    came: Packets,
    gone: Packets,
    numbers: Counted,
}

/// A number as far as 32 bits tell it.
fn shown(number: u64) -> u32
    ensures { result ≡ stopped number }
{
    number.min(u64::from(u32::MAX)) as u32
}

impl Counting {
    /// Nothing came, and nothing was put.
    pub(crate) fn new() -> Counting
        ensures { result ≡ at_first }
    {
        Counting {
            came: Packets::new(),
            gone: Packets::new(),
            numbers: Counted::new(),
        }
    }

    /// Octets came from the peer.
    pub(crate) fn take(&mut self, octets: &[u8], tally: &Tally)
        ensures { Takes self.old octets.now self.new }
    {
        let new = self.came.push(octets);
        let (calls, packets) = (shown(new.calls), shown(new.packets));
        self.numbers.add(calls, packets, 0);
        tally.add(calls, packets, 0);
    }

    /// Octets were put on its link.
    pub(crate) fn put(&mut self, octets: &[u8], tally: &Tally)
        ensures { Puts self.old octets.now self.new }
    {
        let new = self.gone.push(octets);
        let packets = shown(new.packets);
        self.numbers.add(0, 0, packets);
        tally.add(0, 0, packets);
    }

    /// Calls in, calls out, packets in and packets out.
    pub(crate) fn read(&self) -> [u32; 4]
        ensures { result ≡ listed self.now.numbers }
    {
        self.numbers.read()
    }
}
