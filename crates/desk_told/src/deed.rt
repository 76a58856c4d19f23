//! What a desk does.
ghost use Rattle.std.specs.Prelude.{◌≡◌};

use handle_model::{CookieRow, Due};
use manager_api::{Answer, Probe};
use ndr_value::Message;
use std::snapshot::Snapshot;

/// An item of a desk's history: how it began, or a deed of it. Clauses see a snapshot's value.
#[derive(Drop)]
pub enum Deed<D> {
    /// The first of all: the desk before its first deed.
    Began(Snapshot<D>),
    /// It was called and answered. `told` is whether the call's probe told of a cancel.
    Called {
        iface: u16,
        op: u16,
        message: Snapshot<Message>,
        cookies: CookieRow,
        told: bool,
        answer: Snapshot<Answer>,
    },
    /// It ran down a handle.
    RanDown(Snapshot<Due>),
}

/// A probe that says whether it told of a cancel.
pub trait Telling: Probe {
    /// Whether it told of a cancel so far.
    fn has_told(&self) -> bool
        ensures { result ≡ Self.told self.now };
}
