//! Handles that are run down.

use handle_model::{DueItem, DueList, Rundown};
use rpc_base::NoMemory;
use std::alloc::Global;

/// Lists the handles that are run down.
#[derive(Drop)]
struct Lister {
    items: Vec<DueItem>,
    failed: bool,
}

impl Rundown for Lister {
    ghost use Rattle.handle_model.specs.declared.entry.DueItem.{DueItem};

    ghost runs_down = { λ _ _ _. Unit {0} };

    fn rundown(&mut self, item: DueItem) {
        if self.items.push(item).is_err() {
            self.failed = true;
        }
    }
}

/// The handles of a list, each run down.
pub fn run_down(alloc: Global, list: DueList) -> Result<Vec<DueItem>, NoMemory> {
    let mut list = list;
    let mut lister = Lister {
        items: Vec::new(alloc),
        failed: false,
    };
    while let Some(due) = list.take_first() {
        due.spend(&mut lister);
    }
    list.finish();
    if lister.failed {
        return Err(NoMemory);
    }
    Ok(lister.items)
}
