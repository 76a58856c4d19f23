//! Handles that have to be run down, each once.
ghost use Rattle.std.specs.Prelude.{◌≡◌, [], ◌∷◌, MatchOption};

use crate::entry::{DueItem, DueItems};
use std::marker::Model;

/// A handle that has to be run down. It can't be dropped or copied: `spend` alone ends it.
pub struct Due {
    item: DueItem,
}

impl Model for Due {
    ghost use Rattle.handle_model.specs.declared.entry.DueItem.{DueItem};

    ghost Value = { DueItem };

    ghost view = { λ d. d.item };
}

/// What gives up the state that it kept behind a handle (C706, "Interface Definition Language",
/// context rundown).
pub trait Rundown {
    ghost use Rattle.handle_model.specs.declared.entry.DueItem.{DueItem};

    /// What it was, the handle, and what it then is.
    ghost runs_down: { Self → DueItem → Self → Type 0 };

    fn rundown(&mut self, item: DueItem)
        ensures { runs_down self.old item self.new };
}

impl Due {
    /// The kind of the handle.
    pub fn kind(&self) -> u32
        ensures { result ≡ self.now.kind }
    {
        self.item.kind
    }

    /// Runs the handle down.
    pub fn spend<T: Rundown>(self, by: &mut T)
        ensures { T.runs_down by.old self by.new }
    {
        let Due { item } = self;
        by.rundown(item);
    }
}

/// The handles of a group that has ended, those that are not run down yet. It can't be dropped:
/// `finish` alone ends it.
pub struct DueList {
    items: DueItems,
    next: usize,
}

impl Model for DueList {
    ghost use Rattle.std.specs.Prelude.{List, drop};
    ghost use Rattle.handle_model.specs.declared.entry.DueItem.{DueItem};

    ghost Value = { List DueItem };

    ghost view = { λ l. drop l.next l.items };
}

impl DueList {
    /// The handles of these items, in order. It takes no memory.
    pub fn of(items: DueItems) -> DueList
        ensures { result ≡ items }
    {
        DueList { items, next: 0 }
    }

    /// The first of them.
    #[tactic(auto, using(crate::proofs::Rest::resting))]
    pub fn take_first(&mut self) -> Option<Due>
        ensures { MatchOption result ((self.old ≡ []) × (self.new ≡ [])) (λ due. self.old ≡ due ∷ self.new) }
    {
        if self.next >= self.items.len() {
            return None;
        }
        let item = self.items.as_slice()[self.next];
        self.next += 1;
        Some(Due { item })
    }

    /// Ends the list, of which nothing is left.
    pub fn finish(self)
        requires { self ≡ [] }
    {
        let DueList { items: _, next: _ } = self;
    }
}
