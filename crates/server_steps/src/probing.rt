//! What a running call asks of its group.
ghost use Rattle.std.specs.Prelude.{◌≡◌, true, false};
ghost use Rattle.server_steps.specs.Places.{place_at};
ghost use Rattle.server_steps.specs.Passes.{MayAsk, HasAsked};

use desk_told::Telling;
use group_hub::{Hub, Pass};
use manager_api::Probe;
use std::marker::Model;
use std::snapshot::Snapshot;
use std::sync::Wait;

/// Which call is asked for, and at which hub.
#[derive(Drop)]
pub struct Place {
    group: u32,
    call: u32,
    hub: Snapshot<Hub>,
}

impl Model for Place {
    ghost use Rattle.server_steps.specs.Places.{Spot, place_at};

    ghost Value = { Spot };

    ghost view = { λ p. place_at p.hub.value p.group p.call };
}

/// A running call's look at its group, by a pass that has entered nothing. Contracts see which call is asked for, and
/// whether it told of a cancel.
#[derive(Drop)]
pub struct HubProbe<'a, R> {
    rt: &'a R,
    hub: &'a Hub,
    pass: Pass,
    group: u32,
    call: u32,
    told: bool,
}

impl<'a, R> Model for HubProbe<'a, R> {
    ghost use Rattle.server_steps.specs.Places.{Asking, place_at};
    ghost use Rattle.server_steps.specs.Passes.{IsAsking};

    ghost Value = { Asking };

    ghost view = { λ p. record { told = p.told; place = place_at p.hub.now p.group p.call } };

    ghost invariant = { λ p. IsAsking p.hub.now p.group p.call p.pass p.told };
}

impl<'a, R> HubProbe<'a, R> {
    /// A look by a pass that has seen the call accepted, which told of nothing yet.
    pub(crate) fn new(rt: &'a R, hub: &'a Hub, pass: Pass, group: u32, call: u32) -> HubProbe<'a, R>
        requires { MayAsk hub.now group call pass }
        ensures told { result.told ≡ false }
        ensures place { result.place ≡ place_at hub.now group call }
    {
        HubProbe {
            rt,
            hub,
            pass,
            group,
            call,
            told: false,
        }
    }

    /// The pass, which has seen the Cancel that it told of.
    pub(crate) fn into_pass(self, _hub: &Hub, _group: u32, _call: u32) -> Pass
        requires { self.place ≡ place_at _hub.now _group _call }
        ensures asks { MayAsk _hub.now _group _call result }
        ensures told { self.entry.told ≡ true → HasAsked _hub.now.boot _group _call result }
    {
        let HubProbe { pass, .. } = self;
        pass
    }
}

impl<'a, R: Wait> Probe for HubProbe<'a, R> {
    type Key = Place;

    ghost told = { λ p. p.told };

    ghost key = { λ p. p.place };

    fn asked(&mut self) -> bool {
        let asked = self
            .hub
            .asked(self.rt, &mut self.pass, self.group, self.call);
        if asked {
            self.told = true;
        }
        asked
    }
}

impl<'a, R: Wait> Telling for HubProbe<'a, R> {
    fn has_told(&self) -> bool {
        self.told
    }
}
