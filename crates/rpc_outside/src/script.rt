//! What the peer of a link in memory does, step by step.
ghost use Rattle.std.specs.Prelude.{◌≡◌, ◌++◌, ◌<◌, ℕ, List, [], length, drop};
ghost use Rattle.rpc_outside.specs.Scripts.{Playing, first_octets, is_spent, ready, after_put, Plays};

use crate::link::Taken;
use rpc_base::{Items, Octets};
use std::marker::Model;

/// A step of a peer.
#[derive(Debug, Drop)]
pub enum LinkStep {
    /// It sends these octets.
    Give(Octets),
    /// It is quiet, for one take.
    Quiet,
    /// It is quiet until something is put on the link.
    AwaitPut,
    /// It ends. No later step is reached.
    End,
}

/// Steps, the first one first. A peer ends after the last.
pub type LinkSteps = Items<LinkStep>;

/// A peer in the middle of its steps. Contracts see the octets that were taken and the steps that are
/// to come, of whose first one some octets may have been taken.
#[derive(Debug, Drop)]
pub struct Script {
    steps: LinkSteps,
    at: usize,
    done: usize,
}

impl Model for Script {
    ghost use Rattle.std.specs.Prelude.{◌≤◌, length, drop};
    ghost use Rattle.rpc_outside.specs.Scripts.{Playing, playing, first_octets};

    ghost Value = { Playing };

    ghost view = { λ s. playing s.steps s.at s.done };

    ghost invariant = { λ s. s.done ≤ length (first_octets (drop s.at s.steps)) };
}

impl Script {
    /// A peer that has done nothing yet.
    pub fn new(steps: LinkSteps) -> Script
        ensures { result ≡ record { taken = []; rest = steps } }
    {
        Script {
            steps,
            at: 0,
            done: 0,
        }
    }

    /// Does the next steps up to one that answers a take.
    pub fn take(&mut self, into: &mut [u8]) -> Taken
        requires { 0 < length into.old }
        ensures { Plays self.old into.new result self.new }
    {
        self.settle();
        match self.steps.get(self.at) {
            Some(LinkStep::Give(octets)) => {
                let count = copy_octets(octets.as_slice(), self.done, into);
                self.done += count;
                Taken::Bytes(count)
            }
            Some(LinkStep::Quiet) => {
                self.advance();
                Taken::Quiet
            }
            Some(LinkStep::AwaitPut) => Taken::Quiet,
            Some(LinkStep::End) => Taken::End,
            None => Taken::End,
        }
    }

    /// Something was put on the link.
    pub fn see_put(&mut self)
        ensures taken { self.new.taken ≡ self.old.taken }
        ensures rest { self.new.rest ≡ after_put self.old.rest }
    {
        self.settle();
        match self.steps.get(self.at) {
            Some(LinkStep::AwaitPut) => self.advance(),
            Some(LinkStep::Give(_)) => {}
            Some(LinkStep::Quiet) => {}
            Some(LinkStep::End) => {}
            None => {}
        }
    }

    /// Passes the steps whose octets are all taken.
    fn settle(&mut self)
        ensures taken { self.new.taken ≡ self.old.taken }
        ensures rest { self.new.rest ≡ ready self.old.rest }
    {
        while self.is_spent() {
            self.advance();
        }
    }

    /// Whether the next step gives octets, and has none left.
    fn is_spent(&self) -> bool
        ensures { result ≡ is_spent self.now.rest }
    {
        match self.steps.get(self.at) {
            Some(LinkStep::Give(octets)) => octets.len() <= self.done,
            Some(LinkStep::Quiet) => false,
            Some(LinkStep::AwaitPut) => false,
            Some(LinkStep::End) => false,
            None => false,
        }
    }

    /// Passes the next step, if there is one, as if what is left of its octets were taken.
    fn advance(&mut self)
        ensures taken { self.new.taken ≡ self.old.taken ++ first_octets self.old.rest }
        ensures rest { self.new.rest ≡ drop 1 self.old.rest }
    {
        if self.at < self.steps.len() {
            self.at += 1;
            self.done = 0;
        }
    }
}

ghost use Rattle.std.specs.Prelude.{◌≤◌, min, take};

/// Copies octets from an index on, as far as both lists go, and answers how many.
fn copy_octets(from: &[u8], at: usize, into: &mut [u8]) -> usize
    requires { at ≤ length from.now }
    ensures count { result ≡ min (length into.new) (length (drop at from.now)) }
    ensures front { take result into.new ≡ take result (drop at from.now) }
    ensures room { length into.new ≡ length into.old }
{
    let left = &from[at..];
    let count = left.len().min(into.len());
    into[..count].copy_from_slice(&left[..count]);
    count
}
