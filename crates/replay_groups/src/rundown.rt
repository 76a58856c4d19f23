//! The handles of a group that has ended.
ghost use Rattle.std.specs.Prelude.{◌≡◌, Option};
ghost use Rattle.ndr_table.specs.Tables.{TableForm};
ghost use Rattle.desk_service.specs.Views.{services};
ghost use Rattle.replay_world.specs.Services.{AreRunDown};
ghost use Rattle.replay_groups.specs.Service.{service_of};

use desk_service::ServiceDesks;
use handle_model::DueList;

/// Runs the handles down, one after the other.
pub fn run_down(desks: &mut ServiceDesks, items: DueList)
    ensures down { (echo : Option TableForm) → AreRunDown (service_of echo) (services desks.old) items (services desks.new) }
    ensures echo { (services desks.new).echo ≡ (services desks.old).echo }
{
    let mut items = items;
    while let Some(due) = items.take_first() {
        due.spend(desks);
    }
    items.finish();
}
