//! Laws of the definitions, each the contract of a function that does nothing.
ghost use Rattle.server_counts.specs.Pieces.{CountedArePackets, PdusArePackets, PdusGoOn};

/// The packets that were counted are those of the octets so far.
pub fn counted_are_packets()
    ensures { CountedArePackets }
{}

/// Octets that are PDUs, one after the other, have these as their packets.
pub fn pdus_are_packets()
    ensures { PdusArePackets }
{}

/// PDUs and then further ones are PDUs, one after the other.
pub fn pdus_go_on()
    ensures { PdusGoOn }
{}
