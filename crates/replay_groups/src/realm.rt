//! The value.
ghost use Rattle.std.specs.Prelude.{◌≡◌, ◌++◌, IfOk, OnOk, Option};
ghost use Rattle.ndr_table.specs.Tables.{TableForm};
ghost use Rattle.desk_service.specs.Shows.{shown_by};
ghost use Rattle.desk_service.specs.Start.{at_start};
ghost use Rattle.desk_service.specs.State.{Services};
ghost use Rattle.desk_service.specs.Views.{services};
ghost use Rattle.manager_api.specs.Served.{tables_in};
ghost use Rattle.replay_script.specs.Counting.{TellsJournals};
ghost use Rattle.replay_world.specs.Worlds.{World, booted};
ghost use Rattle.replay_world.specs.Services.{RunsDown};
ghost use Rattle.replay_world.specs.Replays.{log_text};
ghost use Rattle.replay_groups.specs.Service.{service_of};

use crate::{Groups, log, run_down};
use desk_service::ServiceDesks;
use group_core::Rest;
use manager_api::Served;
use ndr_table::Table;
use replay_script::Counts;
use rpc_base::NoMemory;
use std::alloc::Global;

/// The interfaces, groups and desks of a replay.
#[derive(Drop)]
pub struct Realm {
    pub(crate) alloc: Global,
    pub(crate) served: Served,
    pub(crate) groups: Groups,
    pub(crate) desks: ServiceDesks,
}

/// Runs down what is left where a group has ended.
pub(crate) fn settle(desks: &mut ServiceDesks, rest: Rest)
    ensures down { (echo : Option TableForm) → RunsDown (service_of echo) (services desks.old) rest (services desks.new) }
    ensures echo { (services desks.new).echo ≡ (services desks.old).echo }
{
    match rest {
        Rest::Stays => {}
        Rest::Shut(items) => run_down(desks, items),
    }
}

impl Realm {
    ghost use Rattle.replay_groups.specs.Holding.{Holds};

    /// Those of a server with that boot word, with an echo of that interface.
    ///
    /// # Errors
    ///
    /// `NoMemory` where there is no memory for the tables and the desks.
    pub fn begin(alloc: Global, boot: u64, echo: Option<&Table>) -> Result<Realm, NoMemory>
        ensures { IfOk result (λ realm. Holds (shown_by (λ t. t.now) echo.entry) realm (booted boot (at_start (shown_by (λ t. t.now) echo.entry)))) }
    {
        let desks = ServiceDesks::new(alloc, echo)?;
        let served = desks.tables(alloc)?;
        Ok(Realm {
            alloc,
            served,
            groups: Groups::new(alloc, boot),
            desks,
        })
    }

    /// The interfaces.
    pub fn served(&self) -> &Served
        ensures { tables_in result.now ≡ tables_in self.now.served }
    {
        &self.served
    }

    /// How many entries of each kind the whole journals have.
    pub fn counts(&self) -> &Counts
        ensures { (echo : Option TableForm) (w : World Services) → Holds echo self.now w → TellsJournals result.now w.groups }
    {
        self.groups.counts()
    }

    /// Adds the text of all journals, by the groups' ids.
    ///
    /// # Errors
    ///
    /// `NoMemory` where there is no memory for it.
    #[tactic(auto, unfolding(replay_world::specs::Replays::log_text))]
    pub fn log(&self, into: &mut Vec<u8>) -> Result<(), NoMemory>
        ensures { OnOk result ((echo : Option TableForm) (w : World Services) → Holds echo self.now w → into.new.items ≡ into.old.items ++ log_text w) }
    {
        log(self.alloc, &self.groups, into)
    }
}
