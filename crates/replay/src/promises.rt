//! The law of replays in the words of the promise.
ghost use Rattle.std.specs.Prelude.{Option};
ghost use Rattle.ndr_table.specs.Tables.{TableForm};
ghost use Rattle.replay.specs.Laws.{EachIsServedWhereSound, ReplaysServeAll};

use replay_world::Serves;

/// For every script and each of its connections: what was printed for it are the answers to what its octets ask, by the
/// final journal of its group, and its entries there are made, each End by its manager's relation. The journals that the
/// script leaves are legal and settled.
pub fn each_is_served<D: Serves>()
    ensures { (echo : Option TableForm) → EachIsServedWhereSound (D.service echo) }
{}

/// So each connection of a text that is replayed is served, where the journals that the replay leaves are legal and
/// settled.
pub fn replays_serve_all<D: Serves>()
    ensures { (echo : Option TableForm) → ReplaysServeAll (D.service echo) }
{}
