//! Entries, counted as they come.
ghost use Rattle.std.specs.Prelude.{◌≡◌, ◌<◌, ◌+◌, ◌-◌, ◌^◌, true, ℕ, Option, List, [], length, filter};
ghost use Rattle.handle_model.specs.declared.entry.Asked.{Asked};
ghost use Rattle.handle_model.specs.declared.entry.Said.{Said};
ghost use Rattle.handle_model.specs.declared.entry.DueItem.{DueItem};
ghost use Rattle.handle_model.specs.declared.entry.Entry.TheVariants.{Accept, Take, Deny, Cancel, End, Shut};
ghost use Rattle.replay_script.specs.Counting as spec;
ghost use Rattle.replay_script.specs.Counting.{Adds, AddsGroup, IsWhole};

use handle_model::Outcome;

/// How many entries of each kind journals have. A count stops at the greatest number of 64 bits.
#[derive(Clone, Copy, Debug, PartialEq, Eq)]
pub struct Counts {
    /// How many journals there are.
    pub groups: u64,
    pub accepted: u64,
    pub taken: u64,
    pub denied: u64,
    pub cancelled: u64,
    /// How many handles ends issued.
    pub issued: u64,
    /// How many handles ends closed.
    pub closed: u64,
    /// How many handles were run down at the ends of groups.
    pub rundown: u64,
}

fn is_issue(outcome: &Outcome) -> bool
    ensures { result ≡ spec.is_issue outcome.now }
{
    matches!(outcome, Outcome::Issue { .. })
}

fn is_close(outcome: &Outcome) -> bool
    ensures { result ≡ spec.is_close outcome.now }
{
    matches!(outcome, Outcome::Close)
}

fn issues(results: &[Outcome]) -> usize
    ensures { result ≡ length (filter spec.is_issue results.now) }
{
    results.iter().filter(|outcome| is_issue(outcome)).count()
}

fn closes(results: &[Outcome]) -> usize
    ensures { result ≡ length (filter spec.is_close results.now) }
{
    results.iter().filter(|outcome| is_close(outcome)).count()
}

/// A count with so many more.
fn more(count: u64, by: u64) -> u64
    ensures { result ≡ spec.stopped (count + by) }
{
    count.saturating_add(by)
}

/// Whether a count did not stop.
fn is_told(count: u64) -> bool
    ensures { result ≡ true → count < 2 ^ 64 - 1 }
{
    count < u64::MAX
}

impl Counts {
    /// Of no journals.
    pub fn none() -> Counts
        ensures { spec.TellsJournals result [] }
    {
        Counts {
            groups: 0,
            accepted: 0,
            taken: 0,
            denied: 0,
            cancelled: 0,
            issued: 0,
            closed: 0,
            rundown: 0,
        }
    }

    /// A journal without entries more.
    #[tactic(auto, using(crate::proofs::Counting::opened_adds))]
    pub fn opened(&mut self)
        ensures { AddsGroup self.old self.new }
    {
        self.groups = more(self.groups, 1);
    }

    /// A call is accepted.
    #[tactic(auto, using(crate::proofs::Counting::accepted_adds))]
    pub fn accepted(&mut self)
        ensures { (k : ℕ) (asked : Asked) → Adds (Accept k asked) self.old self.new }
    {
        self.accepted = more(self.accepted, 1);
    }

    /// A call is taken.
    #[tactic(auto, using(crate::proofs::Counting::taken_adds))]
    pub fn taken(&mut self)
        ensures { (k : ℕ) (cookies : List (Option ℕ)) → Adds (Take k cookies) self.old self.new }
    {
        self.taken = more(self.taken, 1);
    }

    /// A call is denied for its handles.
    #[tactic(auto, using(crate::proofs::Counting::denied_adds))]
    pub fn denied(&mut self)
        ensures { (k slot : ℕ) → Adds (Deny k slot) self.old self.new }
    {
        self.denied = more(self.denied, 1);
    }

    /// A call is cancelled.
    #[tactic(auto, using(crate::proofs::Counting::cancelled_adds))]
    pub fn cancelled(&mut self)
        ensures { (k : ℕ) → Adds (Cancel k) self.old self.new }
    {
        self.cancelled = more(self.cancelled, 1);
    }

    /// A call ends with these results.
    #[tactic(auto, using(crate::proofs::Counting::ended_adds))]
    pub fn ended(&mut self, results: &[Outcome])
        ensures { (k : ℕ) (said : Said) → Adds (End k results.now said) self.old self.new }
    {
        self.issued = more(self.issued, issues(results) as u64);
        self.closed = more(self.closed, closes(results) as u64);
    }

    /// A group ends, and so many handles are run down.
    #[tactic(auto, using(crate::proofs::Counting::shut_adds))]
    pub fn shut(&mut self, handles: usize)
        ensures { (items : List DueItem) → length items ≡ handles → Adds (Shut items) self.old self.new }
    {
        self.rundown = more(self.rundown, handles as u64);
    }

    /// Whether no count stopped.
    #[tactic(auto, using(crate::proofs::Counting::is_whole))]
    pub fn is_whole(&self) -> bool
        ensures { result ≡ true → IsWhole self.now }
    {
        if !is_told(self.groups) || !is_told(self.accepted) || !is_told(self.taken) {
            return false;
        }
        if !is_told(self.denied) || !is_told(self.cancelled) || !is_told(self.issued) {
            return false;
        }
        if !is_told(self.closed) || !is_told(self.rundown) {
            return false;
        }
        true
    }
}
