//! The call of a connection.
ghost use Rattle.std.specs.Prelude.{◌≡◌, Some, MatchOption};
ghost use Rattle.replay_world.specs.declared.peer.Unanswered.TheVariants.{Call};
ghost use Rattle.replay.specs.Hands.{HasNoCall};

use replay_events::Played;
use replay_world::{Member, Unanswered};

/// The accepted call of a connection, by its group's member and its number there.
pub fn call_of(played: &Played) -> Option<(Member, u32)>
    ensures { MatchOption result (HasNoCall played.now) (λ call. (played.now.member ≡ Some call.0) × (played.now.unanswered ≡ Call call.1)) }
{
    let member = played.member?;
    match played.unanswered {
        Unanswered::Call(call) => Some((member, call)),
        _ => None,
    }
}
