//! Laws of the definitions, each the contract of a function that does nothing.
ghost use Rattle.std.specs.Prelude.{◌≡◌, ◌≢◌, List, ℕ};
ghost use Rattle.pdu_codec.specs.Pdus.{FitsPdu, IsPdu, pdu_octets, IsWritable};
ghost use Rattle.pdu_codec.specs.Faults.{IsFault};
ghost use Rattle.pdu_codec.specs.declared.pdu.Pdu.{Pdu};
ghost use Rattle.pdu_codec.specs.declared.fault.PduFault.{PduFault};

/// Octets spell at most one PDU.
pub fn one_pdu()
    ensures { (p q : Pdu) (octets : List ℕ) → IsPdu p octets → IsPdu q octets → p ≡ q }
{}

/// What `write_pdu` adds spells the PDU, whose numbers are those of the types.
pub fn written_is_spelling()
    ensures { (p : Pdu) → FitsPdu p → IsWritable p → IsPdu p (pdu_octets p) }
{}

/// A PDU that has a spelling can be written.
pub fn spelled_is_writable()
    ensures { (p : Pdu) (octets : List ℕ) → IsPdu p octets → IsWritable p }
{}

/// Octets have one first fault, and none where they spell a PDU. Want of memory aside.
pub fn one_answer()
    ensures fault { (octets : List ℕ) (f g : PduFault) → IsFault octets f → IsFault octets g → f ≢ PduFault.Memory → g ≢ PduFault.Memory → f ≡ g }
    ensures pdu { (p : Pdu) (octets : List ℕ) (f : PduFault) → IsPdu p octets → IsFault octets f → f ≡ PduFault.Memory }
{}
