//! What is entered behind an entry where the group ends.
ghost use Rattle.std.specs.Prelude.{◌≡◌, List, OnOk};
ghost use Rattle.handle_model.specs.declared.entry.Entry.{Entry as EntrySpec};
ghost use Rattle.world_server.specs.Servers.{seen, behind, is_end};

use crate::Server;
use group_core::Rest;
use handle_model::{DueItem, DueList, Entry, Rundown};
use rpc_base::NoMemory;

/// Nothing is kept behind the handles of this server, so nothing is given up.
#[derive(Drop)]
struct NothingKept;

impl Rundown for NothingKept {
    ghost use Rattle.std.specs.Prelude.{⊤};

    ghost runs_down = { λ _ _ _. ⊤ };

    fn rundown(&mut self, _: DueItem) {}
}

/// Runs the handles down, one after the other.
fn run_down(items: DueList) {
    let mut items = items;
    let mut nothing = NothingKept;
    while let Some(due) = items.take_first() {
        due.spend(&mut nothing);
    }
    items.finish();
}

/// Whether the group has ended. Its handles are run down.
fn ends(rest: Rest) -> bool
    ensures { result ≡ is_end rest }
{
    match rest {
        Rest::Stays => false,
        Rest::Shut(items) => {
            run_down(items);
            true
        }
    }
}

impl Server {
    /// An entry comes, and the Shut where the group entered it behind.
    pub(crate) fn settle(&mut self, entry: Entry, rest: Rest) -> Result<(), NoMemory>
        ensures { OnOk result ((older : List EntrySpec) → (seen self.old).group.past ≡ behind rest entry older
            → (seen self.new) ≡ record (seen self.old) { past = behind rest entry (seen self.old).past }) }
    {
        let shut = ends(rest);
        self.push(entry)?;
        if shut { self.push_newest() } else { Ok(()) }
    }
}
