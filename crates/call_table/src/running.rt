//! Where the Accepts of the running calls stand, so that the least place is found without a look at the
//! calls.
ghost use Rattle.std.specs.Prelude.{◌≡◌, ℕ, ◌+◌, ◌<◌, ◌≤◌, [], OnOk, OnErr};
ghost use Rattle.call_table.specs.Sorted.{one, held, IsLeastFrom};
ghost use Rattle.call_table.specs.Tally.{runs_of};
ghost use Rattle.call_table.specs.Places as spec;

use crate::row::Row;
use crate::sorted::SortedKeys;
use rpc_base::NoMemory;
use std::alloc::Global;
use std::marker::Model;

/// The places of the Accepts of the running calls, in order.
#[derive(Drop)]
pub struct RunningPlaces {
    places: SortedKeys,
}

impl Model for RunningPlaces {
    ghost use Rattle.call_table.specs.Sorted.{OrderedKeys};

    ghost Value = { OrderedKeys };

    ghost view = { λ r. r.places };
}

impl RunningPlaces {
    /// Without places. It takes no memory.
    pub fn new(alloc: Global) -> RunningPlaces
        ensures { result ≡ record { keys = []; room = 0 } }
    {
        RunningPlaces {
            places: SortedKeys::new(alloc),
        }
    }

    /// Makes room for `n` places more.
    ///
    /// # Errors
    /// `NoMemory` where memory runs out; everything is then as before.
    pub fn reserve(&mut self, n: usize) -> Result<(), NoMemory>
        ensures ok { OnOk result (n ≤ self.new.room) }
        ensures more { self.old.room ≤ self.new.room }
        ensures same { self.new.keys ≡ self.old.keys }
        ensures err { OnErr result (self.new ≡ self.old) }
    {
        self.places.reserve(n)
    }

    /// A call whose Accept stands there runs from now on.
    pub fn start(&mut self, place: u128)
        requires { 0 < self.old.room }
        ensures keys { (n : ℕ) → held n self.new.keys ≡ held n self.old.keys + one n place }
        ensures room { self.new.room + 1 ≡ self.old.room }
    {
        self.places.insert(place);
    }

    /// A call comes. It has a place where it runs.
    pub fn enter(&mut self, row: &Row)
        requires { runs_of row.now ≤ self.old.room }
        ensures keys { (n : ℕ) → held n self.new.keys ≡ held n self.old.keys + spec.runs_at_place n row.now }
        ensures room { self.new.room + runs_of row.now ≡ self.old.room }
    {
        if row.runs {
            self.start(row.place);
        }
    }

    /// A call goes.
    pub fn leave(&mut self, row: &Row)
        requires { (n : ℕ) → spec.runs_at_place n row.now ≤ held n self.old.keys }
        ensures keys { (n : ℕ) → held n self.new.keys + spec.runs_at_place n row.now ≡ held n self.old.keys }
        ensures room { self.new.room ≡ self.old.room }
    {
        if row.runs {
            self.places.remove(row.place);
        }
    }

    /// The least place.
    pub fn least(&self) -> Option<u128>
        ensures { IsLeastFrom self.now.keys 0 result }
    {
        self.places.least_from(0)
    }
}
