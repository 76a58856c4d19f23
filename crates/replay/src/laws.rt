//! What holds of the loads of the built-in services.
ghost use Rattle.std.specs.Prelude.{◌≡◌, ℕ, List, None};
ghost use Rattle.replay_world.specs.Loads.{IsSummary, LoadsAreReplays};
ghost use Rattle.replay_groups.specs.Service.{service_of};

use replay_groups::{BuiltIn, is_determined};
use replay_world::{loads_are_replays, one_load};

/// A load of a number in so many steps comes to one line.
pub fn one_summary()
    ensures { (number steps : ℕ) (text text' : List ℕ) → IsSummary (service_of None) number steps text → IsSummary (service_of None) number steps text' → text ≡ text' }
{
    is_determined();
    one_load::<BuiltIn>();
}

/// A load is a replay: the lines of its rounds, behind a line with the boot word 1, are played to its end.
pub fn each_is_a_replay()
    ensures { LoadsAreReplays (service_of None) }
{
    loads_are_replays::<BuiltIn>();
}
