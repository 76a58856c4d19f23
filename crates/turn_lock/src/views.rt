//! What a thread knows of a lock, and the rule that all threads keep.
use crate::history::Storied;
use atomic_table::{Seat, TableRule};
use std::collections::LinkedList;
use std::marker::PhantomData;

/// What a thread knows of a lock. It stands in contracts alone: no value of it is made.
pub struct View<E> {
    /// Whether the thread has the turn.
    pub holds: bool,
    /// The history, as far as the thread has seen it.
    pub front: LinkedList<E>,
    /// The places of the entries that it entered, counted from 0 in the history.
    pub own: LinkedList<u64>,
    /// What else it has seen: the shorter front of the two that were joined last.
    pub also_seen: LinkedList<E>,
}

/// The rule of a lock's words, its slot and the views.
pub struct TurnRule<T> {
    of: PhantomData<T>,
}

impl<T: Storied> TableRule<Option<T>, View<T::Entry>, T::Start> for TurnRule<T> {
    ghost use Rattle.std.specs.Prelude.{[], false};
    ghost use Rattle.turn_lock.specs.Rule.{Lawful, view};

    ghost holds = { λ start. Lawful T.tells T.ties (T.first start) };

    ghost first = { λ start. view false (T.first start) [] };
}

/// A thread's part in one lock. It has no octets. It can't be copied, so an entry is one pass's own.
pub type Pass<T> = Seat<Option<T>, View<<T as Storied>::Entry>>;
