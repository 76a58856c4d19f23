//! The waiting calls by connection, so that those of one are found without a look at the others.
ghost use Rattle.std.specs.Prelude.{◌≡◌, ℕ, ◌+◌, ◌<◌, ◌≤◌, [], OnOk, OnErr};
ghost use Rattle.call_table.specs.Sorted.{held};
ghost use Rattle.call_table.specs.Waits as spec;

use crate::row::Row;
use crate::sorted::SortedKeys;
use rpc_base::NoMemory;
use std::alloc::Global;
use std::marker::Model;

/// How many numbers there are for the calls of a connection.
const NUMBERS: u128 = 1 << 32;

/// The waiting calls, each behind the number of its connection, in order.
#[derive(Drop)]
pub struct WaitingCalls {
    keys: SortedKeys,
}

impl Model for WaitingCalls {
    ghost use Rattle.call_table.specs.Sorted.{OrderedKeys};

    ghost Value = { OrderedKeys };

    ghost view = { λ w. w.keys };
}

impl WaitingCalls {
    /// Without calls. It takes no memory.
    pub fn new(alloc: Global) -> WaitingCalls
        ensures { result ≡ record { keys = []; room = 0 } }
    {
        WaitingCalls {
            keys: SortedKeys::new(alloc),
        }
    }

    /// Makes room for `n` calls more.
    ///
    /// # Errors
    /// `NoMemory` where memory runs out; everything is then as before.
    pub fn reserve(&mut self, n: usize) -> Result<(), NoMemory>
        ensures ok { OnOk result (n ≤ self.new.room) }
        ensures more { self.old.room ≤ self.new.room }
        ensures same { self.new.keys ≡ self.old.keys }
        ensures err { OnErr result (self.new ≡ self.old) }
    {
        self.keys.reserve(n)
    }

    /// A call comes. It has a key where it waits.
    pub fn enter(&mut self, row: &Row)
        requires { 0 < self.old.room }
        ensures keys { (n : ℕ) → held n self.new.keys ≡ held n self.old.keys + spec.waits_under n row.now }
        ensures room { self.old.room ≤ self.new.room + 1 }
    {
        if row.runs {
            return;
        }
        self.keys.insert(key_of(row.conn, row.call));
    }

    /// A call goes, or waits no more.
    pub fn leave(&mut self, row: &Row)
        requires { (n : ℕ) → spec.waits_under n row.now ≤ held n self.old.keys }
        ensures keys { (n : ℕ) → held n self.new.keys + spec.waits_under n row.now ≡ held n self.old.keys }
        ensures room { self.new.room ≡ self.old.room }
    {
        if row.runs {
            return;
        }
        self.keys.remove(key_of(row.conn, row.call));
    }

    /// The first waiting call of a connection.
    pub fn first_of(&self, conn: u32) -> Option<u32>
        ensures { spec.IsFirstOf self.now.keys conn result }
    {
        let low = key_of(conn, 0);
        match self.keys.least_from(low) {
            Some(key) if key - low < NUMBERS => Some((key - low) as u32),
            _ => None,
        }
    }
}

/// The key of a call: it is behind that of its connection.
fn key_of(conn: u32, call: u32) -> u128
    ensures { result ≡ spec.key_of conn call }
{
    u128::from(conn) * NUMBERS + u128::from(call)
}
