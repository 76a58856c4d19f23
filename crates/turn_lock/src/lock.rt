//! The lock, and the turn at it.
ghost use Rattle.std.specs.Prelude.{◌≡◌, ◌++◌, [], length, IfOk, IsSomeAnd};
ghost use Rattle.turn_lock.specs.Histories.{StartsWith, Closed, Within, AtMostOnce};
ghost use Rattle.turn_lock.specs.Passes.{front, own, IsPassOf, HasTurn};

use crate::history::Storied;
use crate::steps::{Another, Both, GetTurn, SeeAll};
use crate::views::{Pass, TurnRule, View};
use atomic_table::Table;
use rpc_base::NoMemory;
use std::alloc::Global;
use std::sync::Wait;
use std::thread;

/// A lock's words, two that are used and as many as two lines of a processor's cache hold: no line has
/// words of two locks, or else threads at different locks would wait for one another's lines.
const WORDS: [u64; 16] = [0, 0, 0, 0, 0, 0, 0, 0, 0, 0, 0, 0, 0, 0, 0, 0];

/// A value that threads take turns at.
#[derive(Drop)]
pub struct TurnLock<T: Storied> {
    // Word 0 is 1 while a thread has the turn. Word 1 counts the entries that were entered, modulo
    // 2^64. Nothing uses the others. The slot has the value while nobody has the turn.
    pub(crate) table: Table<Option<T>, View<T::Entry>, T::Start, TurnRule<T>, Global>,
    ghost sized: { (table.shared.table_id.words ≡ 16) × (table.shared.table_id.slots ≡ 1) },
}

/// The turn at a lock, with its value. It can't be dropped: `exit` alone gives it back.
pub struct Held<'a, T: Storied> {
    pub(crate) lock: &'a TurnLock<T>,
    /// The pass that entered.
    pub pass: Pass<T>,
    pub(crate) value: Option<T>,
}

impl<T: Storied> TurnLock<T> {
    /// A lock round a value whose history is what it begins with, and its first pass.
    ///
    /// # Errors
    ///
    /// `NoMemory` where there is no memory for it. No other call takes memory.
    pub fn new(
        alloc: Global,
        value: T,
        start: &T::Start,
    ) -> Result<(TurnLock<T>, Pass<T>), NoMemory>
        requires { T.tells value (T.first start.now) }
        ensures { IfOk result (λ made. IsPassOf made.0.table.shared.table_id made.1 × (front made.1 ≡ T.first start.now) × (own made.1 ≡ [])) }
    {
        let mut slots = Vec::new(alloc);
        slots.push(Some(value))?;
        match Table::new(alloc, &WORDS, slots, start) {
            Ok((table, pass)) => Ok((TurnLock { table }, pass)),
            Err(_) => Err(NoMemory),
        }
    }

    /// Tries until it gets the turn. The front is then the whole history.
    pub fn enter<R: Wait>(&self, rt: &R, mut pass: Pass<T>) -> Held<'_, T>
        requires { IsPassOf self.now.table.shared.table_id pass }
        ensures lock { result.lock.now.table.shared.table_id ≡ self.now.table.shared.table_id }
        ensures held { HasTurn self.now.table.shared.table_id result.pass }
        ensures value { IsSomeAnd result.value (λ x. T.tells x (front result.pass)) }
        ensures front { StartsWith (front result.pass) (front pass) }
        ensures own { (own result.pass ≡ own pass) × Within (own pass) (length (front pass)) × Closed T.ties (front result.pass) (own pass) × AtMostOnce (own pass) }
    {
        for _ in rt.forever() {
            let shared = &self.table.shared;
            if shared.compare_exchange::<GetTurn<T>>(&mut pass, 0, 0, 1) == 0 {
                let value = shared.exchange(&mut pass, 0, None);
                return Held {
                    lock: self,
                    pass,
                    value,
                };
            }
            thread::yield_now();
        }
        unreachable!()
    }

    /// Another pass, for another thread. It has seen as much, and has no entries of its own.
    #[tactic(auto, using(crate::proofs::PassLemmas::splits))]
    pub fn split(&self, pass: &mut Pass<T>) -> Pass<T>
        requires { IsPassOf self.now.table.shared.table_id pass.old }
        ensures kept { IsPassOf self.now.table.shared.table_id pass.new × (pass.new.me.0 ≡ pass.old.me.0) }
        ensures new { IsPassOf self.now.table.shared.table_id result × (front result ≡ front pass.old) × (own result ≡ []) }
    {
        self.table.shared.split_seat::<Another>(pass)
    }

    /// Takes in another pass. The pass has then seen what both had seen, and has the entries of both.
    pub fn join(&self, pass: &mut Pass<T>, other: Pass<T>)
        requires { IsPassOf self.now.table.shared.table_id pass.old × IsPassOf self.now.table.shared.table_id other }
        ensures pass { IsPassOf self.now.table.shared.table_id pass.new }
        ensures front { StartsWith (front pass.new) (front pass.old) × StartsWith (front pass.new) (front other) }
        ensures own { own pass.new ≡ own pass.old ++ own other }
        ensures told { (x : T) × T.tells x (front pass.new) }
        ensures places { Within (own pass.new) (length (front pass.new)) × Closed T.ties (front pass.new) (own pass.new) × AtMostOnce (own pass.new) }
    {
        self.table.shared.join_seat::<Both>(pass, other);
        self.table.shared.load::<SeeAll<T>>(pass, 0);
    }
}
