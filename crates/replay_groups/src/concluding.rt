//! A call ends.
ghost use Rattle.std.specs.Prelude.{◌≡◌, ◌≤◌, length, true, Some, IfOk};
ghost use Rattle.handle_model.specs.Journal as journals;
ghost use Rattle.conn_asks.specs.Answers.{FitsStub};
ghost use Rattle.conn_histories.specs.Requests.{HasSlots};
ghost use Rattle.manager_api.specs.Served.{tables_in};
ghost use Rattle.desk_service.specs.State.{tables_of};
ghost use Rattle.desk_service.specs.Views.{services};
ghost use Rattle.replay_groups.specs.Rows.{HasCookies};
ghost use Rattle.replay_world.specs.Worlds.{journal};

use crate::ends::finish;
use crate::realm::{Realm, settle};
use crate::{goes_on, is_asked};
use desk_counts::{Counted, Stats};
use handle_model::{Asked, CookieRow, Home, Said};
use replay_world::Member;
use rpc_base::NoMemory;

/// The same numbers.
fn same_numbers(numbers: &Counted) -> Counted
    ensures { result ≡ numbers.now }
{
    let [calls, _, packets_in, packets_out] = numbers.read();
    let mut same = Counted::new();
    same.add(calls, packets_in, packets_out);
    same
}

impl Realm {
    ghost use Rattle.replay_groups.specs.Holding.{Known, Moves};
    ghost use Rattle.replay_groups.specs.Ends.{EndsIn};

    /// Has the desk of a running call's interface answer it, and ends it so: what its end says. `row` has the cookies that it
    /// was taken with, and `numbers` are those of all connections so far.
    ///
    /// # Errors
    ///
    /// `NoMemory` where there is no memory for the answer, or the group has ended.
    pub fn finish(
        &mut self,
        member: Member,
        call: u32,
        asked: &Asked,
        row: &CookieRow,
        numbers: &Counted,
    ) -> Result<Said, NoMemory>
        requires runs { Known self.old (λ w. (journals.runs (journal w member.group) call ≡ true) × (journals.asked (journal w member.group) call ≡ Some asked.now)) }
        requires served { tables_in self.old.served ≡ tables_of (services self.old.desks) }
        requires slots { HasSlots (tables_in self.old.served) asked.now.iface asked.now.op asked.now.order asked.now.stub asked.now.slots }
        requires few { length asked.now.slots ≤ 4 }
        requires cookies { HasCookies row.now asked.now.slots }
        ensures ends { IfOk result (λ said. Moves self.old (EndsIn member call asked.now row.now numbers.now said) self.new) }
        ensures fits { IfOk result (λ said. FitsStub (Some said)) }
    {
        if !goes_on(&self.groups, member.group) {
            return Err(NoMemory);
        }
        let home = Home {
            boot: self.groups.boot(),
            group: member.group,
        };
        let cancelled = is_asked(&self.groups, member.group, call);
        let ended = finish(
            self.alloc,
            &self.served,
            &mut self.desks,
            home,
            asked,
            row,
            cancelled,
            same_numbers(numbers),
        )?;
        let said = ended.said.copy(self.alloc)?;
        let rest = self
            .groups
            .end(member.group, call, ended.results, ended.said);
        settle(&mut self.desks, rest);
        Ok(said)
    }
}
