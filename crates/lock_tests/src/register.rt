//! A register of marks, and calls on it behind a lock.
ghost use Rattle.std.specs.Prelude.{◌≡◌, ◌++◌, ◌∷◌, [], IfOk, OnOk, OnErr};
ghost use Rattle.turn_lock.specs.Histories.{StartsWith};
ghost use Rattle.turn_lock.specs.Passes.{front, own, IsPassOf};
ghost use Rattle.lock_tests.specs.Marks.{Enters};

use rpc_base::{Items, NoMemory};
use std::alloc::Global;
use std::sync::Wait;
use turn_lock::{Pass, Storied, TurnLock};

/// A mark of one thread, with its number there.
#[derive(Clone, Copy, Debug, PartialEq, Eq)]
pub struct Mark {
    pub by: u32,
    pub number: u32,
}

/// All marks that were entered.
#[derive(Drop)]
pub struct Register {
    pub marks: Items<Mark>,
}

impl Storied for Register {
    type Entry = Mark;

    type Start = ();

    ghost first = { λ _. [] };

    ghost tells = { λ register history. register.marks ≡ history };

    ghost ties = { λ before mark place. ⊥ };
}

impl Register {
    pub fn new(alloc: Global) -> Register
        ensures { result.marks ≡ [] }
    {
        Register {
            marks: Items::new(alloc),
        }
    }

    fn push(&mut self, mark: Mark) -> Result<(), NoMemory>
        ensures ok { OnOk result (self.new.marks ≡ self.old.marks ++ mark ∷ []) }
        ensures err { OnErr result (self.new.marks ≡ self.old.marks) }
    {
        self.marks.push(mark)
    }

    /// How many marks of a thread there are, where they stand in the order of their numbers from 0.
    fn in_order(&self, by: u32) -> Option<u32> {
        let mut next = 0;
        for mark in self.marks.as_slice() {
            if mark.by == by {
                if mark.number != next {
                    return None;
                }
                next = next.saturating_add(1);
            }
        }
        Some(next)
    }
}

/// Enters a mark behind all that was entered so far.
pub fn enter_mark<R: Wait>(
    rt: &R,
    lock: &TurnLock<Register>,
    pass: Pass<Register>,
    mark: Mark,
) -> (Pass<Register>, Result<(), NoMemory>)
    requires { IsPassOf lock.now.table.shared.table_id pass }
    ensures pass { IsPassOf lock.now.table.shared.table_id result.0 }
    ensures front { StartsWith (front result.0) (front pass) }
    ensures entered { OnOk result.1 (Enters pass mark result.0) }
{
    let mut held = lock.enter(rt, pass);
    match held.value().push(mark) {
        Ok(()) => {
            held.commit(1);
            (held.exit(), Ok(()))
        }
        Err(refused) => {
            held.commit(0);
            (held.exit(), Err(refused))
        }
    }
}

/// How many marks of a thread there are, where they stand in the order of their numbers from 0.
pub fn count_marks<R: Wait>(
    rt: &R,
    lock: &TurnLock<Register>,
    pass: Pass<Register>,
    by: u32,
) -> (Pass<Register>, Option<u32>)
    requires { IsPassOf lock.now.table.shared.table_id pass }
    ensures { IsPassOf lock.now.table.shared.table_id result.0 }
{
    let mut held = lock.enter(rt, pass);
    let count = held.value().in_order(by);
    held.commit(0);
    (held.exit(), count)
}
