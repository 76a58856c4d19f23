//! What runs in one turn.
ghost use Rattle.std.specs.Prelude.{ℕ, List};
ghost use Rattle.hub_story.specs.declared.item.Item.{Item};
ghost use Rattle.hub_shard.specs.Shards.{ShardView, Told, Acted};

use crate::shard::Shard;

/// A call of a shard of one thread, and how many items it adds to the history.
pub trait Act {
    ghost use Rattle.std.specs.Prelude.{ℕ, List};
    ghost use Rattle.hub_story.specs.declared.item.Item.{Item};
    ghost use Rattle.hub_shard.specs.Shards.{ShardView, Told, Acted};

    type Answer;

    // What it asks of the history of a shard of a server with that boot word.
    ghost asks: { Self → ℕ → List Item → Type 0 };

    // The answer, and the items that it adds behind that history of the shard of that number.
    ghost gives: { Self → ℕ → ℕ → List Item → Self.Answer → List Item → Type 0 };

    fn act(self, shard: &mut Shard) -> (Self::Answer, u64)
        requires { (log : List Item) × Told shard.old log × asks self shard.old.boot log }
        ensures { (log : List Item) → Told shard.old log → asks self shard.old.boot log → Acted shard.old shard.new log result.1 (gives self shard.old.boot shard.old.number log result.0) };
}
