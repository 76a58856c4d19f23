//! The contexts of a connection.
ghost use Rattle.std.specs.Prelude.{◌≡◌, ◌≤◌, ◌^◌, ◌++◌, [], length, take, IfOk, OnOk, OnErr};
ghost use Rattle.presentation.specs.Offers as spec;

use crate::offers::{answer, interface_of, verdict};
use crate::verdict::{Accepted, Verdict};
use pdu_codec::{ContextResult, Element, Elements, Results};
use rpc_base::{Items, NoMemory, SyntaxId};
use std::alloc::Global;
use std::marker::Model;

/// The interfaces that a server has, and the presentation contexts that one of its connections has
/// accepted. Contracts see both as lists.
#[derive(Drop)]
pub struct Contexts {
    ids: Vec<SyntaxId>,
    accepted: Vec<Accepted>,
    alloc: Global,
}

impl Model for Contexts {
    ghost use Rattle.std.specs.Prelude.{◌≤◌, ◌^◌, length};
    ghost use Rattle.presentation.specs.Offers.{ServedSyntaxes};

    ghost Value = { ServedSyntaxes };

    ghost view = { λ c. record { ids = c.ids.items; accepted = c.accepted.items } };

    ghost invariant = { λ c. length c.ids.items ≤ 2 ^ 16 };
}

impl Contexts {
    /// No context, for a server of these interfaces, which are numbered from 0.
    ///
    /// # Errors
    ///
    /// `NoMemory` where there is no memory for the list.
    pub fn new(alloc: Global, ids: &[SyntaxId]) -> Result<Contexts, NoMemory>
        requires { length ids.now ≤ 2 ^ 16 }
        ensures { IfOk result (λ contexts. contexts ≡ record { ids = ids.now; accepted = [] }) }
    {
        Ok(Contexts {
            ids: Vec::from_slice(alloc, ids)?,
            accepted: Vec::new(alloc),
            alloc,
        })
    }

    /// The number of the interface for which a context is accepted. It takes no memory.
    pub fn find(&self, context: u16) -> Option<u16>
        ensures { result ≡ spec.interface_of self.now.accepted context }
    {
        interface_of(self.accepted.as_slice(), context)
    }

    /// Takes the elements of a bind or an alter_context, one after the other, and gives the answer to
    /// each (C706, "Connection-oriented RPC PDUs", presentation context negotiation). Where there is
    /// no memory, nothing is accepted.
    ///
    /// # Errors
    ///
    /// `NoMemory` where there is no memory for the answers or for the contexts; nothing is accepted
    /// then.
    pub fn offer(&mut self, elements: &Elements) -> Result<Results, NoMemory>
        ensures ids { self.new.ids ≡ self.old.ids }
        ensures results { IfOk result (λ results. results ≡ spec.results_after self.old.ids self.old.accepted elements.now) }
        ensures ok { OnOk result (self.new.accepted ≡ spec.contexts_after self.old.ids self.old.accepted elements.now) }
        ensures err { OnErr result (self.new.accepted ≡ self.old.accepted) }
    {
        let before = self.accepted.len();
        let mut results = Items::new(self.alloc);
        match offer_all(
            &self.ids,
            &mut self.accepted,
            elements.as_slice(),
            &mut results,
        ) {
            Ok(()) => Ok(results),
            Err(fault) => {
                self.accepted.truncate(before);
                Err(fault)
            }
        }
    }
}

/// Takes one element, and gives its answer.
fn offer_one(
    ids: &[SyntaxId],
    accepted: &mut Vec<Accepted>,
    element: &Element,
) -> Result<ContextResult, NoMemory>
    requires { length ids.now ≤ 2 ^ 16 }
    ensures answer { IfOk result (λ r. r ≡ spec.result_of (spec.verdict ids.now accepted.old.items element.now)) }
    ensures ok { OnOk result (accepted.new.items ≡ spec.after ids.now accepted.old.items element.now) }
    ensures err { OnErr result (accepted.new.items ≡ accepted.old.items) }
{
    let verdict = verdict(ids, accepted.as_slice(), element);
    let context = element.context;
    match verdict {
        Verdict::Accept(interface) if interface_of(accepted.as_slice(), context).is_none() => {
            accepted.push(Accepted { context, interface })?;
        }
        _ => {}
    }
    Ok(answer(verdict))
}

/// Takes elements one after the other, and adds their answers.
fn offer_all(
    ids: &[SyntaxId],
    accepted: &mut Vec<Accepted>,
    elements: &[Element],
    results: &mut Results,
) -> Result<(), NoMemory>
    requires { length ids.now ≤ 2 ^ 16 }
    ensures results { OnOk result (results.new ≡ results.old ++ spec.results_after ids.now accepted.old.items elements.now) }
    ensures ok { OnOk result (accepted.new.items ≡ spec.contexts_after ids.now accepted.old.items elements.now) }
    ensures err { OnErr result (take (length accepted.old.items) accepted.new.items ≡ accepted.old.items) }
{
    for element in elements {
        results.push(offer_one(ids, accepted, element)?)?;
    }
    Ok(())
}
