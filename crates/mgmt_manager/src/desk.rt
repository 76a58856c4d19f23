//! The desk behind the interface.
ghost use Rattle.std.specs.Prelude.{◌≡◌, min, [], IfOk};
ghost use Rattle.ndr_value.specs.Values.{Msg, msg};
ghost use Rattle.manager_api.specs.Answers.{ans, AOut};
ghost use Rattle.manager_api.specs.Calls.{Owes};
ghost use Rattle.mgmt_manager.specs.Table.{mgmt_table};
ghost use Rattle.mgmt_manager.specs.Steps as spec;

use crate::answers::{ids_message, listening_message, stats_message};
use crate::ids::Ids;
use desk_counts::Stats;
use handle_model::{CookieRow, DueItem, Rundown};
use manager_api::{Answer, Desk, FixedDesk, Kepts, Probe, or_no_memory, uint_at};
use ndr_value::Message;
use rpc_base::NoMemory;
use std::alloc::Global;

/// The desk of the management interface. It has no handles, and a call leaves it as it was.
#[derive(Drop)]
pub struct MgmtDesk<S> {
    alloc: Global,
    ids: Ids,
    stats: S,
}

impl<S> MgmtDesk<S> {
    ghost use Rattle.std.specs.Borrow.{Lends, sem};
    ghost use Rattle.mgmt_manager.specs.contracts.desk.MgmtDesk.{the_row};

    /// One that tells of these interfaces and numbers.
    pub fn new(alloc: Global, ids: Ids, stats: S) -> MgmtDesk<S>
        ensures ids { result.ids ≡ ids }
        ensures stats { result.stats ≡ stats }
    {
        MgmtDesk { alloc, ids, stats }
    }

    /// The numbers, to be added to.
    pub fn stats_mut(&mut self) -> &mut S
        ensures* writes_back { sem 𝓛 (Lends (the_row S.row) S.row self.entry result (λ w. record self.old { stats = w })) }
        ensures value { result.now ≡ self.old.stats }
    {
        &mut self.stats
    }

    /// How many handles were issued and are neither closed nor run down: none.
    pub fn open_handles(&self) -> usize
        ensures { result ≡ 0 }
    {
        0
    }
}

// The response of that message, which has no handles.
fn out(alloc: Global, message: Message) -> Answer
    ensures { ans result ≡ AOut (msg message) [] }
{
    Answer::Out(message, Kepts::new(alloc))
}

// inq_if_ids
fn ids(alloc: Global, ids: &Ids) -> Result<Answer, NoMemory>
    ensures answer { IfOk result (λ a. ans a ≡ AOut (spec.ids_message ids.now) []) }
    ensures owes { IfOk result (λ a. (asked : Msg) → Owes mgmt_table 0 asked (ans a)) }
{
    let message = ids_message(alloc, ids.as_slice())?;
    Ok(out(alloc, message))
}

// inq_stats
fn stats(alloc: Global, asked: u64, numbers: [u32; 4]) -> Result<Answer, NoMemory>
    ensures answer { IfOk result (λ a. ans a ≡ AOut (spec.stats_message (min asked 4) numbers) []) }
    ensures owes { IfOk result (λ a. (any : Msg) → Owes mgmt_table 1 any (ans a)) }
{
    let message = stats_message(alloc, asked, numbers)?;
    Ok(out(alloc, message))
}

// is_server_listening
fn listening(alloc: Global) -> Result<Answer, NoMemory>
    ensures answer { IfOk result (λ a. ans a ≡ AOut spec.listening_message []) }
    ensures owes { IfOk result (λ a. (asked : Msg) → Owes mgmt_table 2 asked (ans a)) }
{
    let message = listening_message(alloc)?;
    Ok(out(alloc, message))
}

impl<S> Rundown for MgmtDesk<S> {
    ghost use Rattle.std.specs.Prelude.{◌≡◌};

    ghost runs_down = { λ before item after. after ≡ before };

    fn rundown(&mut self, _item: DueItem) {}
}

impl<S: Stats> Desk for MgmtDesk<S> {
    ghost use Rattle.std.specs.Prelude.{◌≡◌};
    ghost use Rattle.mgmt_manager.specs.Table.{mgmt_table};
    ghost use Rattle.mgmt_manager.specs.Steps.{Says};

    ghost table = { λ desk. mgmt_table };

    ghost may = { λ before call told answer after. Says before.ids (S.gives before.stats) call answer × (after ≡ before) };

    fn call<P: Probe>(
        &mut self,
        _iface: u16,
        op: u16,
        message: Message,
        _cookies: CookieRow,
        _probe: &mut P,
    ) -> Answer {
        let numbers = self.stats.read();
        match op {
            0 => or_no_memory(ids(self.alloc, &self.ids)),
            1 => or_no_memory(stats(self.alloc, uint_at(&message, 0), numbers)),
            2 => or_no_memory(listening(self.alloc)),
            _ => unreachable!(),
        }
    }
}

impl<S: Stats> FixedDesk for MgmtDesk<S> {
    ghost use Rattle.std.specs.Prelude.{refl};
    ghost use Rattle.mgmt_manager.specs.Table.{mgmt_table};

    ghost fixed = { mgmt_table };

    ghost serves = { λ desk. refl };
}
