//! One turn at one shard.
ghost use Rattle.std.specs.Prelude.{◌≡◌, ℕ, List};
ghost use Rattle.turn_lock.specs.Passes.{IsPassOf as IsSeatOf, front};
ghost use Rattle.hub_story.specs.declared.item.Item.{Item};
ghost use Rattle.hub_story.specs.Histories.{Begins};
ghost use Rattle.hub_story.specs.Calls.{Met};
ghost use Rattle.group_hub.specs.ShardPasses.{seen_by};
ghost use Rattle.group_hub.specs.Locks.{IsPassOf};
ghost use Rattle.group_hub.specs.Turns.{GivesOwn, Ran};

use crate::lock::{Seat, ShardLock};
use crate::shard_pass::ShardPass;
use hub_shard::Act;
use std::sync::Wait;

impl ShardLock {
    /// Runs the act at one place of the shard's history.
    pub fn run<A: Act, R: Wait>(&self, rt: &R, pass: &mut ShardPass, act: A) -> A::Answer
        requires pass { IsPassOf self.now pass.old }
        requires asks { (log : List Item) → Met self.now.boot self.now.number pass.old log → A.asks act self.now.boot log }
        requires ties { GivesOwn A.Answer self.now.boot self.now.number pass.old (A.gives act self.now.boot self.now.number) }
        ensures pass { IsPassOf self.now pass.new }
        ensures call { Ran self.now.boot self.now.number pass.old pass.new (λ log more. A.gives act self.now.boot self.now.number log result more) }
    {
        let Some(seat) = pass.seat.take() else {
            unreachable!()
        };
        let (seat, answer) = self.run_on(rt, seat, act);
        pass.seat = Some(seat);
        answer
    }

    fn run_on<A: Act, R: Wait>(&self, rt: &R, seat: Seat, act: A) -> (Seat, A::Answer)
        requires pass { IsSeatOf self.now.lock.table.shared.table_id seat }
        requires begins { Begins self.now.boot self.now.number (front seat) }
        requires asks { (log : List Item) → Met self.now.boot self.now.number (seen_by seat) log → A.asks act self.now.boot log }
        requires ties { GivesOwn A.Answer self.now.boot self.now.number (seen_by seat) (A.gives act self.now.boot self.now.number) }
        ensures pass { IsSeatOf self.now.lock.table.shared.table_id result.0 }
        ensures call { Ran self.now.boot self.now.number (seen_by seat) (seen_by result.0) (λ log more. A.gives act self.now.boot self.now.number log result.1 more) }
    {
        let mut held = self.lock.enter(rt, seat);
        let (answer, added) = act.act(held.value());
        held.commit(added);
        (held.exit(), answer)
    }
}
