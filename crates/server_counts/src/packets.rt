//! The packets of a stream.
ghost use Rattle.std.specs.Prelude.{◌≡◌, ◌≤◌, ◌<◌, ◌∷◌, [], length, take};

use crate::behind::{NONE, behind, entered};
use crate::{NewPackets, Place};
use pdu_codec::HEADER_SIZE;
use std::marker::Model;

/// Where a stream of octets stands among its packets, each of which is a header without a fault and as many octets as it says
/// (C706, "Connection-oriented RPC PDUs", common fields). It keeps at most a header and takes no memory.
#[derive(Debug, Drop)]
pub struct Packets {
    head: [u8; HEADER_SIZE],
    count: usize,
    place: Place,
}

impl Model for Packets {
    ghost use Rattle.std.specs.Prelude.{◌<◌, take};
    ghost use Rattle.pdu_codec.specs.Constants.{header_size};
    ghost use Rattle.server_counts.specs.Packets.{PacketsView, IsOpen};

    ghost Value = { PacketsView };

    ghost view = { λ p. record { held = take p.count p.head; place = p.place } };

    ghost invariant = { λ p. (p.count < header_size) × IsOpen p.place };
}

impl Packets {
    ghost use Rattle.server_counts.specs.declared.place.Place.TheVariants.{Head};
    ghost use Rattle.server_counts.specs.Packets.{at_start, Comes};

    /// Nothing came.
    pub fn new() -> Packets
        ensures { result ≡ at_start }
    {
        Packets {
            head: [0; HEADER_SIZE],
            count: 0,
            place: Place::Head,
        }
    }

    /// Octets come, which may end anywhere. Answers how many packets are whole with them. Linear in the piece.
    pub fn push(&mut self, piece: &[u8]) -> NewPackets
        ensures { Comes self.old piece.now result self.new }
    {
        let mut all = NONE;
        let mut start = 0;
        while start < piece.len() {
            let (_, left) = piece.split_at(start);
            let (size, new) = self.step(left);
            all.packets += new.packets;
            all.calls += new.calls;
            start += size;
        }
        all
    }

    /// Some octets come off the front of a piece: how many, and how many packets are whole with them.
    fn step(&mut self, piece: &[u8]) -> (usize, NewPackets)
        requires { 0 < length piece.now }
        ensures size { (1 ≤ result.0) × (result.0 ≤ length piece.now) }
        ensures few { (result.1.packets ≤ 1) × (result.1.calls ≤ 1) }
        ensures comes { Comes self.old (take result.0 piece.now) result.1 self.new }
    {
        match self.place {
            Place::Head => (1, self.head_octet(piece[0])),
            Place::Body(call, missing) => {
                let size = missing.min(piece.len());
                let (place, new) = entered(call, missing - size);
                self.place = place;
                (size, new)
            }
            Place::Stopped => (piece.len(), NONE),
        }
    }

    /// An octet of a header comes.
    fn head_octet(&mut self, octet: u8) -> NewPackets
        requires { self.old.place ≡ Head }
        ensures few { (result.packets ≤ 1) × (result.calls ≤ 1) }
        ensures comes { Comes self.old (octet ∷ []) result self.new }
    {
        self.head[self.count] = octet;
        self.count += 1;
        if self.count < HEADER_SIZE {
            return NONE;
        }
        self.count = 0;
        let (place, new) = behind(self.head);
        self.place = place;
        new
    }
}
