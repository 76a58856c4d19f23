//! What one entry is.
ghost use Rattle.std.specs.Prelude.{◌≡◌};
ghost use Rattle.std.specs.List.{list_any};
ghost use Rattle.handle_model.specs.Journal as spec;

use crate::entry::{DueItem, Entry, Outcome};
use crate::slots::count_opens;

impl Entry {
    /// Whether it is the Join of the connection.
    pub fn joins(&self, conn: u32) -> bool
        ensures { result ≡ spec.joins conn self.now }
    {
        match self {
            Entry::Join { conn: c } => *c == conn,
            _ => false,
        }
    }

    /// Whether it is the Leave of the connection.
    pub fn leaves(&self, conn: u32) -> bool
        ensures { result ≡ spec.leaves conn self.now }
    {
        match self {
            Entry::Leave { conn: c } => *c == conn,
            _ => false,
        }
    }

    /// Whether it is a Take of the call.
    pub fn takes(&self, call: u32) -> bool
        ensures { result ≡ spec.takes call self.now }
    {
        match self {
            Entry::Take { call: k, .. } => *k == call,
            _ => false,
        }
    }

    /// Whether it is a Deny of the call.
    pub fn denies(&self, call: u32) -> bool
        ensures { result ≡ spec.denies call self.now }
    {
        match self {
            Entry::Deny { call: k, .. } => *k == call,
            _ => false,
        }
    }

    /// Whether it is a Cancel of the call.
    pub fn cancels(&self, call: u32) -> bool
        ensures { result ≡ spec.cancels call self.now }
    {
        match self {
            Entry::Cancel { call: k } => *k == call,
            _ => false,
        }
    }

    /// Whether it is an Orphan of the call.
    pub fn orphans(&self, call: u32) -> bool
        ensures { result ≡ spec.orphans call self.now }
    {
        match self {
            Entry::Orphan { call: k } => *k == call,
            _ => false,
        }
    }

    /// Whether it is an End of the call.
    pub fn ends(&self, call: u32) -> bool
        ensures { result ≡ spec.ends call self.now }
    {
        match self {
            Entry::End { call: k, .. } => *k == call,
            _ => false,
        }
    }

    /// Whether it is a Take, Deny, Cancel or Orphan of the call.
    pub fn decides(&self, call: u32) -> bool
        ensures { result ≡ spec.decides call self.now }
    {
        match self {
            Entry::Take { call: k, .. }
            | Entry::Deny { call: k, .. }
            | Entry::Cancel { call: k }
            | Entry::Orphan { call: k } => *k == call,
            _ => false,
        }
    }

    /// Whether it is the Shut.
    pub fn is_shut(&self) -> bool
        ensures { result ≡ spec.is_shut self.now }
    {
        matches!(self, Entry::Shut { .. })
    }

    /// Whether it is a Join.
    pub fn is_join(&self) -> bool
        ensures { result ≡ spec.is_join self.now }
    {
        matches!(self, Entry::Join { .. })
    }

    /// Whether it is an Accept.
    pub fn is_accept(&self) -> bool
        ensures { result ≡ spec.is_accept self.now }
    {
        matches!(self, Entry::Accept { .. })
    }

    /// The connection that joins by it.
    pub fn joined(&self) -> Option<u32>
        ensures { result ≡ spec.joined_in self.now }
    {
        match self {
            Entry::Join { conn } => Some(*conn),
            _ => None,
        }
    }

    /// The call that is accepted by it.
    pub fn accepted(&self) -> Option<u32>
        ensures { result ≡ spec.accepted_in self.now }
    {
        match self {
            Entry::Accept { call, .. } => Some(*call),
            _ => None,
        }
    }

    /// The call that is taken by it.
    pub fn taken(&self) -> Option<u32>
        ensures { result ≡ spec.taken_in self.now }
    {
        match self {
            Entry::Take { call, .. } => Some(*call),
            _ => None,
        }
    }

    /// How many handles the call that is accepted by it may issue.
    pub fn opens(&self) -> usize
        ensures { result ≡ spec.opens_in self.now }
    {
        match self {
            Entry::Accept { asked, .. } => count_opens(asked.slots.as_slice()),
            _ => 0,
        }
    }

    /// Whether the handle of that serial is issued by it.
    pub fn issues(&self, serial: u32) -> bool
        ensures { result ≡ spec.issues_in serial self.now }
    {
        match self {
            Entry::End { results, .. } => any_issues(results.as_slice(), serial),
            _ => false,
        }
    }

    /// Whether the handle of that serial is run down by it.
    pub fn runs_down(&self, serial: u32) -> bool
        ensures { result ≡ spec.runs_down serial self.now }
    {
        match self {
            Entry::Shut { due } => any_is_of(due.as_slice(), serial),
            _ => false,
        }
    }
}

impl DueItem {
    fn is_of(&self, serial: u32) -> bool
        ensures { result ≡ spec.is_item_of serial self.now }
    {
        self.serial == serial
    }
}

fn any_is_of(due: &[DueItem], serial: u32) -> bool
    ensures { result ≡ list_any (spec.is_item_of serial) due.now }
{
    due.iter().any(|item| item.is_of(serial))
}

fn any_issues(results: &[Outcome], serial: u32) -> bool
    ensures { result ≡ list_any (spec.issues serial) results.now }
{
    results.iter().any(|outcome| outcome.issues(serial))
}
