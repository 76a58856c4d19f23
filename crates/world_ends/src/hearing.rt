//! What the caller's end hears.
ghost use Rattle.std.specs.Prelude.{◌≡◌, ◌++◌, ◌||◌, Option, map, IfOk};
ghost use Rattle.std.specs.Option.{option_map};
ghost use Rattle.pdu_stream.specs.Cuts.{IsCut};
ghost use Rattle.client_core.specs.States.{Outcome, told};
ghost use Rattle.world_laws.specs.Ends.{CallerEnd};
ghost use Rattle.world_laws.specs.Calling.{HearsPdu, HearsPdus, HearsOctets, breaks};
ghost use Rattle.world_ends.specs.Callers.{IsCaller, fate_of, told_so};

use crate::{Caller, Fate};
use client_core::Told;
use pdu_codec::Pdu;
use pdu_stream::{Cut, cut_stream};
use rpc_base::{NoMemory, Octets};
use std::alloc::Global;

/// The PDUs of the octets that were held and of those that came, and what follows them.
fn cut_of(alloc: Global, held: &[u8], came: &[u8]) -> Result<Cut, NoMemory>
    ensures { IfOk result (IsCut (held.now ++ came.now)) }
{
    let mut octets = Vec::from_slice(alloc, held)?;
    octets.extend_from_slice(came)?;
    let pieces = [Octets::from_vec(octets)];
    cut_stream(alloc, &pieces)
}

fn either(a: bool, b: bool) -> bool
    ensures { result ≡ (a || b) }
{
    a || b
}

impl Caller {
    /// What was told is known of the call that is out, if one is. True where the protocol is broken.
    fn tell(&mut self, out: bool, outcome: Option<Told>) -> bool
        ensures breaks { result ≡ breaks (option_map told outcome) }
        ensures fates { map fate_of self.new.fates.items ≡ told_so out (option_map told outcome) (map fate_of self.old.fates.items) }
        ensures same { self.new ≡ record self.old { fates = self.new.fates } }
    {
        match outcome {
            Some(Told::Done(message)) => {
                self.set(out, Fate::Done(message));
                false
            }
            Some(Told::Fault { status, not_run }) => {
                self.set(out, Fate::Fault { status, not_run });
                false
            }
            Some(Told::Broken(_)) => true,
            Some(Told::Bound(_) | Told::NotBound(_)) => false,
            None => false,
        }
    }

    /// A PDU is heard. True where it breaks the protocol.
    fn hear_pdu(&mut self, pdu: Pdu) -> Result<bool, NoMemory>
        ensures { (c : CallerEnd) → IsCaller self.old c
            → IfOk result (λ broken. (t : Option Outcome) × (d : CallerEnd) × HearsPdu c pdu t d × (broken ≡ breaks t) × IsCaller self.new d) }
    {
        let out = self.client.is_calling();
        let outcome = self.client.on_pdu(pdu)?;
        Ok(self.tell(out, outcome))
    }

    /// PDUs are heard, one after the other, up to one that breaks the protocol: true then.
    fn hear_pdus(&mut self, pdus: Vec<Pdu>) -> Result<bool, NoMemory>
        ensures { (c : CallerEnd) → IsCaller self.old c → IfOk result (λ broken. (d : CallerEnd) × HearsPdus c pdus.items d broken × IsCaller self.new d) }
    {
        let mut pdus = pdus;
        pdus.reverse();
        while let Some(pdu) = pdus.pop() {
            if self.hear_pdu(pdu)? {
                return Ok(true);
            }
        }
        Ok(false)
    }

    /// Octets come, which may end anywhere. True where they break the protocol.
    ///
    /// # Errors
    ///
    /// `NoMemory` where there is no memory for them or for what they tell.
    pub fn hear(&mut self, octets: &[u8]) -> Result<bool, NoMemory>
        ensures { (c : CallerEnd) → IsCaller self.old c → IfOk result (λ broken. (d : CallerEnd) × HearsOctets c octets.now d broken × IsCaller self.new d) }
    {
        let cut = cut_of(self.alloc, self.rest.as_slice(), octets)?;
        let faulty = cut.fault.is_some();
        let broken = self.hear_pdus(cut.pdus.into_vec())?;
        self.rest = cut.rest.into_vec();
        Ok(either(broken, faulty))
    }
}
