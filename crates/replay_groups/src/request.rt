//! A request comes to a call, or to a status.
ghost use Rattle.std.specs.Prelude.{◌≡◌, ◌||◌, true, IfOk};
ghost use Rattle.handle_model.specs.Journal as journals;
ghost use Rattle.manager_api.specs.Served.{tables_in};
ghost use Rattle.server_calls.specs.Suited.{Opened};
ghost use Rattle.conn_histories.specs.Entries.{asked_as as asked_as_spec};
ghost use Rattle.replay_world.specs.Events.{request as request_spec};
ghost use Rattle.replay_world.specs.Worlds.{journal};
ghost use Rattle.replay_groups.specs.Keeps.{Has, Known, Told};
ghost use Rattle.replay_groups.specs.Requests.{IsLimited};

use crate::realm::Realm;
use crate::{Groups, goes_on, slots};
use group_core::AcceptRefusal;
use handle_model::{Asked, Slots};
use pdu_stream::Joined;
use replay_world::Member;
use rpc_base::{NoMemory, Status};
use server_calls::{numbered_stay, slots_of};
use std::alloc::Global;

/// What a request came to.
#[derive(Drop)]
pub enum Requested {
    /// It is refused with this status.
    Refused(Status),
    /// It is accepted as the call of this number, and this was asked, with the slots as the journal has them.
    Accepted(u32, Asked),
}

/// A request as it is accepted of a member.
fn asked_as(member: Member, joined: Joined, iface: u16, slots: Slots) -> Asked
    ensures { result ≡ asked_as_spec member.number (request_spec joined iface) slots }
{
    Asked {
        conn: member.number,
        iface,
        op: joined.op,
        order: joined.order,
        reply: !joined.maybe,
        slots,
        stub: joined.stub,
    }
}

/// What was asked, with the slots of the call as its group has them.
fn numbered(
    alloc: Global,
    groups: &Groups,
    id: u32,
    call: u32,
    asked: Asked,
) -> Result<Asked, NoMemory>
    requires there { Has groups.now id }
    requires waits { Known groups.now id (λ j. (journals.waits j call || journals.runs j call) ≡ true) }
    ensures { IfOk result (λ a. Told groups.now id (λ j. (journals.waits j call || journals.runs j call) ≡ true → a ≡ record asked { slots = journals.slots j call })) }
{
    let mut numbered = Slots::new(alloc);
    numbered.append(slots(groups, id, call))?;
    let mut asked = asked;
    asked.slots = numbered;
    Ok(asked)
}

/// What becomes of a request that its group refuses.
fn limited(refusal: AcceptRefusal) -> Result<Requested, NoMemory>
    ensures { IfOk result (λ requested. IsLimited refusal requested) }
{
    match refusal {
        AcceptRefusal::Memory => Err(NoMemory),
        AcceptRefusal::Calls | AcceptRefusal::Handles | AcceptRefusal::Numbers => {
            Ok(Requested::Refused(Status::NCA_S_SERVER_TOO_BUSY))
        }
    }
}

impl Realm {
    ghost use Rattle.replay_groups.specs.Holding.{Known as KnownOf, Moves};
    ghost use Rattle.replay_groups.specs.Requests.{RequestsIn};

    /// Accepts a request of a member, for the interface of that number, or refuses it: by its operation, its stub, or a limit
    /// of its group.
    ///
    /// # Errors
    ///
    /// `NoMemory` where there is no memory for the call, or its group has ended.
    pub fn request(
        &mut self,
        member: Member,
        joined: Joined,
        iface: u16,
    ) -> Result<Requested, NoMemory>
        requires { KnownOf self.old (λ w. journals.is_open (journal w member.group) member.number ≡ true) }
        ensures { IfOk result (λ requested. Moves self.old (RequestsIn member joined iface requested) self.new) }
    {
        let stub = joined.stub.as_slice();
        match slots_of(
            self.alloc,
            &self.served,
            iface,
            joined.op,
            joined.order,
            stub,
        ) {
            Err(status) => {
                if status == Status::NCA_S_FAULT_REMOTE_NO_MEMORY {
                    Err(NoMemory)
                } else {
                    Ok(Requested::Refused(status))
                }
            }
            Ok(found) => self.accept(member, joined, iface, found),
        }
    }

    fn accept(
        &mut self,
        member: Member,
        joined: Joined,
        iface: u16,
        slots: Slots,
    ) -> Result<Requested, NoMemory>
        requires is_open { KnownOf self.old (λ w. journals.is_open (journal w member.group) member.number ≡ true) }
        requires opened { Opened (tables_in self.old.served) iface joined.op joined.order joined.stub slots }
        ensures { IfOk result (λ requested. Moves self.old (RequestsIn member joined iface requested) self.new) }
    {
        if !goes_on(&self.groups, member.group) {
            return Err(NoMemory);
        }
        let asked = asked_as(member, joined, iface, slots);
        let copy = asked.copy(self.alloc)?;
        match self.groups.accept(member.group, asked) {
            Ok(call) => {
                numbered_stay();
                let asked = numbered(self.alloc, &self.groups, member.group, call, copy)?;
                Ok(Requested::Accepted(call, asked))
            }
            Err((_, refusal)) => limited(refusal),
        }
    }
}
