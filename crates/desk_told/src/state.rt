//! The desk, where a thread has its turn.
ghost use Rattle.std.specs.Prelude.{◌≡◌, ◌<◌, true, false, length};
ghost use Rattle.ndr_value.specs.Values.{msg};
ghost use Rattle.manager_api.specs.Answers.{ans, cancelled};
ghost use Rattle.manager_api.specs.Calls.{Owes, has_cookies, uses_at};
ghost use Rattle.manager_api.specs.Messages.{IsRequest};
ghost use Rattle.desk_told.specs.Deeds.{form, began, called, ran_down, By};

use crate::deed::{Deed, Telling};
use handle_model::{CookieRow, Due};
use manager_api::{Answer, FixedDesk};
use ndr_value::Message;
use std::snapshot::Snapshot;
use turn_lock::Storied;

/// A desk as its deeds left it.
#[derive(Drop)]
pub struct DeskState<D: FixedDesk + Drop> {
    pub(crate) desk: D,
    /// The last item of its history. It has no octets: clauses alone read it.
    pub(crate) last: Snapshot<Deed<D>>,
}

impl<D: FixedDesk + Drop> Storied for DeskState<D> {
    ghost use Rattle.std.specs.Prelude.{map, [], ◌∷◌};
    ghost use Rattle.desk_told.specs.Deeds.{form};
    ghost use Rattle.desk_told.specs.Histories.{Tells};

    type Entry = Deed<D>;

    type Start = Deed<D>;

    ghost first = { λ start. start ∷ [] };

    ghost tells = { λ state items. Tells D.may D.runs_down state.desk (form state.last.value) (map form items) };

    ghost ties = { λ before deed place. ⊥ };
}

impl<D: FixedDesk + Drop> DeskState<D> {
    /// The desk, which has done nothing yet.
    pub(crate) fn new(desk: D) -> DeskState<D>
        ensures desk { result.desk ≡ desk }
        ensures last { form result.last.value ≡ began desk }
    {
        let began = Deed::Began(Snapshot::of(&desk));
        DeskState {
            last: Snapshot::of(&began),
            desk,
        }
    }

    /// It answers a call.
    pub(crate) fn answer<P: Telling>(
        &mut self,
        iface: u16,
        op: u16,
        message: Message,
        cookies: CookieRow,
        probe: &mut P,
    ) -> Answer
        requires number { op < length D.fixed.ops }
        requires request { IsRequest D.fixed op (msg message) }
        requires handles { has_cookies (uses_at D.fixed op) message.wires cookies ≡ true }
        requires untold { P.told probe.old ≡ false }
        ensures last { form self.new.last.value ≡ called (record { iface = iface; op = op; message = msg message; cookies = cookies }) (P.told probe.new) (ans result) }
        ensures does { By D.may D.runs_down (form self.new.last.value) self.old.desk self.new.desk }
        ensures owes { Owes D.fixed op (msg message) (ans result) }
        ensures told { ans result ≡ cancelled → P.told probe.new ≡ true }
        ensures key { P.key probe.new ≡ P.key probe.old }
    {
        let asked = Snapshot::of(&message);
        let answer = self.desk.call(iface, op, message, cookies, probe);
        let deed = Deed::Called {
            iface,
            op,
            message: asked,
            cookies,
            told: probe.has_told(),
            answer: Snapshot::of(&answer),
        };
        self.last = Snapshot::of(&deed);
        answer
    }

    /// It runs down a handle.
    pub(crate) fn run_down(&mut self, due: Due)
        ensures last { form self.new.last.value ≡ ran_down due }
        ensures does { By D.may D.runs_down (form self.new.last.value) self.old.desk self.new.desk }
    {
        let deed = Deed::RanDown(Snapshot::of(&due));
        self.last = Snapshot::of(&deed);
        due.spend(&mut self.desk);
    }
}
