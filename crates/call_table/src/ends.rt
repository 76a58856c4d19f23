//! Calls that neither wait nor run any more.
ghost use Rattle.std.specs.Prelude.{◌≡◌, ◌+◌, ◌<◌, ◌≤◌, length};
ghost use Rattle.std.specs.List.{remove};

use crate::seek::seek;
use crate::table::CallTable;
use std::marker::Brand;
use std::sync::ledger::{Blank, Ledger};
use wait_list::Steps;

impl CallTable {
    ghost use Rattle.call_table.specs.Rows as spec;

    /// A call neither waits nor runs from now on.
    pub fn end(&mut self, call: u32)
        ensures rows { self.new.rows ≡ spec.without call self.old.rows }
        ensures room { self.new.room ≡ self.old.room }
    {
        self.end_alone::<Brand>(call, Blank::new(1));
    }

    fn end_alone<L: Ledger>(&mut self, call: u32, blank: Blank)
        requires name { blank.name ≡ L.name }
        requires parts { (blank.parts ≡ L.parts) × (0 < blank.parts) }
        ensures rows { self.new.rows ≡ spec.without call self.old.rows }
        ensures room { self.new.room ≡ self.old.room }
    {
        let mut steps = Steps::<L>::new(blank);
        self.end_counted(call, &mut steps);
    }

    /// The same, where the link words that are written are counted: at most 12, however many calls
    /// there are.
    pub fn end_counted<L: Ledger>(&mut self, call: u32, steps: &mut Steps<L>)
        ensures rows { self.new.rows ≡ spec.without call self.old.rows }
        ensures room { self.new.room ≡ self.old.room }
        ensures steps { steps.new ≤ steps.old + 12 }
    {
        match seek(&self.rows, call) {
            Some(at) => self.remove(at, steps),
            None => {}
        }
    }

    /// The waiting calls of a connection wait no more. The answer is how many entries might have come
    /// of them.
    pub fn leave(&mut self, conn: u32) -> usize
        ensures rows { self.new.rows ≡ spec.left conn self.old.rows }
        ensures freed { result + spec.owed_of self.new.rows ≡ spec.owed_of self.old.rows }
        ensures room { self.new.room ≡ self.old.room }
    {
        self.leave_all::<Brand>(conn, Blank::new(1))
    }

    fn leave_all<L: Ledger>(&mut self, conn: u32, blank: Blank) -> usize
        requires name { blank.name ≡ L.name }
        requires parts { (blank.parts ≡ L.parts) × (0 < blank.parts) }
        ensures rows { self.new.rows ≡ spec.left conn self.old.rows }
        ensures freed { result + spec.owed_of self.new.rows ≡ spec.owed_of self.old.rows }
        ensures room { self.new.room ≡ self.old.room }
    {
        let mut steps = Steps::<L>::new(blank);
        let before = self.rows.len();
        while let Some(call) = self.waiting.first_of(conn) {
            self.end_counted(call, &mut steps);
        }
        (before - self.rows.len()) * 4
    }

    fn remove<L: Ledger>(&mut self, at: usize, steps: &mut Steps<L>)
        requires { at < length self.old.rows }
        ensures rows { self.new.rows ≡ remove self.old.rows at }
        ensures room { self.new.room ≡ self.old.room }
        ensures steps { steps.new ≤ steps.old + 12 }
    {
        self.queues.remove(at, steps);
        let row = self.rows.remove(at);
        self.waiting.leave(&row);
        self.running.leave(&row);
        self.tally.leave(&row);
    }
}
