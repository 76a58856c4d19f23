//! The entries of a journal, with room for those that are sure to come.
ghost use Rattle.std.specs.Prelude.{◌≡◌, ◌+◌, ◌≤◌, true, [], drop, length, reverse, OnOk, OnErr, IfOk};
ghost use Rattle.handle_model.specs.Bases.{empty_base};
ghost use Rattle.group_core.specs.Kept.{Came, Same};
ghost use Rattle.group_core.specs.Kept as kept;
ghost use Rattle.group_core.specs.Marks.{MarksTell};
ghost use Rattle.group_core.specs.Folds.{MarksLeft};

use crate::journal::Journal;
use crate::marks::Marks;
use handle_model::{Asked, Base, Entry};
use rpc_base::NoMemory;
use std::alloc::Global;
use std::marker::Model;

/// A journal. Beside its entries it keeps which calls were cancelled after they were taken.
#[derive(Drop)]
pub struct Log {
    journal: Journal,
    marks: Marks,
}

impl Model for Log {
    ghost use Rattle.std.specs.Prelude.{◌≤◌, reverse};
    ghost use Rattle.group_core.specs.Kept.{Logged};
    ghost use Rattle.group_core.specs.Marks.{MarksTell};

    ghost Value = { Logged };

    ghost view = { λ l. l.journal };

    ghost invariant = { λ l. (l.journal.spare ≤ l.marks.room) × MarksTell l.marks l.journal.base (reverse l.journal.entries) };
}

impl Log {
    /// No entry, and no room.
    pub fn new(alloc: Global) -> Log
        ensures { result ≡ record { base = empty_base; entries = []; spare = 0 } }
    {
        Log {
            journal: Journal::new(alloc),
            marks: Marks::new(alloc),
        }
    }

    /// Makes room for so many more.
    ///
    /// # Errors
    /// `NoMemory` where memory runs out; there is then room for as many as before.
    pub fn reserve(&mut self, more: usize) -> Result<(), NoMemory>
        ensures entries { Same self.old self.new }
        ensures ok { OnOk result (self.new.spare ≡ self.old.spare + more) }
        ensures err { OnErr result (self.new.spare ≡ self.old.spare) }
    {
        let Some(wanted) = self.journal.spare().checked_add(more) else {
            return Err(NoMemory);
        };
        self.marks.reserve(wanted)?;
        self.journal.reserve(more)
    }

    /// Adds an entry that accepts no call and asks none to end, and gives up the room for so many more.
    pub fn add(&mut self, entry: Entry, freed: usize)
        requires room { freed + 1 ≤ self.old.spare }
        requires quiet { kept.is_quiet self.old entry ≡ true }
        ensures entries { Came self.old entry self.new }
        ensures spare { self.new.spare + freed + 1 ≡ self.old.spare }
    {
        self.journal.add(entry, freed);
    }

    /// Adds the Accept of a call.
    pub fn enter(&mut self, call: u32, asked: Asked)
        requires { 1 ≤ self.old.spare }
        ensures entries { Came self.old (Entry.Accept call asked) self.new }
        ensures spare { self.new.spare + 1 ≡ self.old.spare }
    {
        self.marks.accept();
        self.journal.add(Entry::Accept { call, asked }, 0);
    }

    /// Adds the Cancel of a call that was taken: it is asked to end.
    pub fn flag(&mut self, call: u32)
        requires room { 1 ≤ self.old.spare }
        requires taken { kept.is_taken_in self.old call ≡ true }
        requires known { call ≤ kept.accepted_in self.old }
        ensures entries { Came self.old (Entry.Cancel call) self.new }
        ensures spare { self.new.spare + 1 ≡ self.old.spare }
    {
        self.marks.mark(call);
        self.journal.add(Entry::Cancel { call }, 0);
    }

    /// The marks of what is left once the older entries are in that base, with room for so many more.
    ///
    /// # Errors
    /// `NoMemory` where memory runs out.
    pub fn marks_after(&self, alloc: Global, base: &Base, more: usize) -> Result<Marks, NoMemory>
        requires { (self.now.base.accepts ≤ base.now.accepts) × (base.now.accepts ≤ kept.accepted_in self.now) }
        ensures { IfOk result (λ marks. MarksLeft self.now base.now more marks) }
    {
        let Some(wanted) = self.journal.spare().checked_add(more) else {
            return Err(NoMemory);
        };
        let mut marks = self.marks.after(alloc, base)?;
        marks.reserve(wanted)?;
        Ok(marks)
    }

    /// Drops the oldest entries, for a base that stands for them. These are the marks of what is left.
    pub fn fold(&mut self, base: Base, count: usize, marks: Marks)
        requires few { count ≤ length self.old.entries }
        requires room { self.old.spare ≤ marks.room }
        requires tells { MarksTell marks base (reverse (drop count self.old.entries)) }
        ensures base { self.new.base ≡ base }
        ensures entries { self.new.entries ≡ drop count self.old.entries }
        ensures spare { self.new.spare ≡ self.old.spare }
    {
        self.marks = marks;
        self.journal.fold(base, count);
    }

    /// Gives memory back for which no entry is to come.
    pub fn trim(&mut self)
        ensures { self.new ≡ self.old }
    {
        self.marks.trim();
        self.journal.trim();
    }

    /// Whether a call was asked to end.
    pub fn asked(&self, call: u32) -> bool
        ensures { result ≡ kept.is_asked_in self.now call }
    {
        self.marks.has(call)
    }

    /// The journal.
    pub fn journal(&self) -> &Journal
        ensures { result.now ≡ self.now }
    {
        &self.journal
    }
}
