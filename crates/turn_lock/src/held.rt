//! What holds the turn.
ghost use Rattle.std.specs.Prelude.{◌≡◌, [], Some, IsSome, IsSomeAnd};
ghost use mir.Syntax.{named};
ghost use Rattle.std.specs.Borrow.{Lends, sem};
ghost use Rattle.turn_lock.specs.contracts.lock.Held.{the_row};
ghost use Rattle.turn_lock.specs.Lent.{held_with};
ghost use Rattle.turn_lock.specs.Passes.{front, own, IsPassOf, HasTurn};
ghost use Rattle.turn_lock.specs.Steps.{MayAdd, Adds};

use crate::history::Storied;
use crate::lock::Held;
use crate::steps::{Commit, GiveTurn};
use crate::views::Pass;

impl<'a, T: Storied> Held<'a, T> {
    /// The value. What is written through the borrow is in it when the borrow ends.
    pub fn value(&mut self) -> &mut T
        requires { IsSome self.old.value }
        ensures* writes_back { sem 𝓛 (Lends (the_row (record { mir = named 0; lft = [] }) T.row T.Entry.row T.Start.row ⟦<T as Storied>⟧) T.row self.entry result (λ w. held_with self.old w)) }
        ensures value { self.old.value ≡ Some result.now }
    {
        match &mut self.value {
            Some(value) => value,
            None => unreachable!(),
        }
    }

    /// Enters what the value tells beyond the front, as that many entries, in one step. They are then
    /// the pass's own. A turn that added nothing commits 0.
    pub fn commit(&mut self, added: u64)
        requires held { HasTurn self.old.lock.now.table.shared.table_id self.old.pass }
        requires adds { IsSomeAnd self.old.value (λ x. MayAdd T.tells T.ties self.old.pass.me.0 x added) }
        ensures lock { self.new.lock.now.table.shared.table_id ≡ self.old.lock.now.table.shared.table_id }
        ensures held { HasTurn self.old.lock.now.table.shared.table_id self.new.pass }
        ensures value { self.new.value ≡ self.old.value }
        ensures adds { IsSomeAnd self.old.value (λ x. Adds T.tells T.ties self.old.pass.me.0 x added self.new.pass.me.0) }
    {
        let shared = &self.lock.table.shared;
        let item = self.value.take();
        match shared.exchange(&mut self.pass, 0, item) {
            None => {}
            Some(_) => unreachable!(),
        }
        shared.fetch_add::<Commit<T>>(&mut self.pass, 1, added);
        self.value = shared.exchange(&mut self.pass, 0, None);
    }

    /// Gives the turn back, with the value. All that was added to it is committed.
    pub fn exit(self) -> Pass<T>
        requires held { HasTurn self.lock.now.table.shared.table_id self.pass }
        requires value { IsSomeAnd self.value (λ x. T.tells x (front self.pass)) }
        ensures pass { IsPassOf self.entry.lock.now.table.shared.table_id result }
        ensures front { front result ≡ front self.entry.pass }
        ensures own { own result ≡ own self.entry.pass }
    {
        let Held {
            lock,
            mut pass,
            value,
        } = self;
        match lock.table.shared.exchange(&mut pass, 0, value) {
            None => {}
            Some(_) => unreachable!(),
        }
        lock.table.shared.store::<GiveTurn>(&mut pass, 0, 0);
        pass
    }
}
