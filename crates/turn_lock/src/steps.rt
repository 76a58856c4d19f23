//! What a thread learns by each atomic step. These types are for contracts alone.
ghost use Rattle.std.specs.Prelude.{[], false};
ghost use Rattle.turn_lock.specs.Rule.{view};
ghost use Rattle.turn_lock.specs.Steps.{got_turn, committed, gave_turn, joined, saw_all};

use crate::history::Storied;
use crate::views::View;
use atomic_table::{Join, Play, Split};
use std::marker::PhantomData;

/// The turn word goes from 0 to 1, if it is 0.
pub struct GetTurn<T> {
    of: PhantomData<T>,
}

impl<T: Storied> Play<Option<T>, View<T::Entry>> for GetTurn<T> {
    ghost then = { got_turn T.tells T.ties };
}

/// The length word grows by what was added.
pub struct Commit<T> {
    of: PhantomData<T>,
}

impl<T: Storied> Play<Option<T>, View<T::Entry>> for Commit<T> {
    ghost then = { committed T.tells T.ties };
}

/// The turn word goes to 0.
pub struct GiveTurn;

impl<T, E> Play<Option<T>, View<E>> for GiveTurn {
    ghost then = { gave_turn };
}

/// Another pass, which has seen as much and has no entries of its own.
pub struct Another;

impl<E> Split<View<E>> for Another {
    ghost left = { λ v. v };

    ghost right = { λ v. view false v.front [] };
}

/// One pass of two.
pub struct Both;

impl<E> Join<View<E>> for Both {
    ghost both = { joined };

    ghost spent = { view false [] [] };
}

/// The turn word is looked at, and the thread has then seen the whole history.
pub struct SeeAll<T> {
    of: PhantomData<T>,
}

impl<T: Storied> Play<Option<T>, View<T::Entry>> for SeeAll<T> {
    ghost then = { saw_all T.tells T.ties };
}
