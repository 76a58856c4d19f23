//! What one slot says, and one result.
ghost use Rattle.std.specs.Prelude.{◌≡◌, ◌+◌, ◌*◌, ◌<◌, ◌≤◌, ◌^◌, ◌&&◌, filter, length};
ghost use Rattle.std.specs.List.{list_any};
ghost use Rattle.handle_model.specs.Slots as spec;
ghost use Rattle.handle_model.specs.Journal as journal;
ghost use Rattle.handle_model.specs.Sound as sound;

use crate::entry::{Home, Outcome, Slot};
use rpc_base::WireHandle;

/// The handle of a serial: attributes 0, and an identifier of the server's boot word, the group's id
/// and the serial.
pub fn handle_of(boot: u64, group: u32, serial: u32) -> WireHandle
    ensures { result ≡ spec.wire_of (record { boot = boot; group = group }) serial }
{
    WireHandle {
        attributes: 0,
        id: u128::from(boot) * (1 << 64) + u128::from(group) * (1 << 32) + u128::from(serial),
    }
}

impl Home {
    /// The handle of a serial in this group.
    pub fn wire(self, serial: u32) -> WireHandle
        ensures { result ≡ spec.wire_of self serial }
    {
        handle_of(self.boot, self.group, serial)
    }
}

impl Slot {
    pub fn kind(&self) -> u32
        ensures { result ≡ spec.kind_of self.now }
    {
        match self {
            Slot::Shares { kind, .. }
            | Slot::Holds { kind, .. }
            | Slot::Changes { kind, .. }
            | Slot::Opens { kind, .. } => *kind,
        }
    }

    /// The handle that it names.
    pub fn named(&self) -> Option<WireHandle>
        ensures { result ≡ spec.named self.now }
    {
        match self {
            Slot::Shares { wire, .. } | Slot::Holds { wire, .. } | Slot::Changes { wire, .. } => {
                Some(*wire)
            }
            Slot::Opens { .. } => None,
        }
    }

    /// Whether its call alone may use the handle.
    pub fn is_exclusive(&self) -> bool
        ensures { result ≡ spec.is_exclusive self.now }
    {
        matches!(self, Slot::Holds { .. } | Slot::Changes { .. })
    }

    /// Whether the two slots name one handle, and one of them alone may use it.
    pub fn clashes(&self, other: &Slot) -> bool
        ensures { result ≡ spec.clash self.now other.now }
    {
        match (self.named(), other.named()) {
            (Some(a), Some(b)) => {
                !a.is_null() && a == b && (self.is_exclusive() || other.is_exclusive())
            }
            _ => false,
        }
    }

    /// Whether it names that handle.
    pub fn names(&self, wire: WireHandle) -> bool
        ensures { result ≡ spec.names wire self.now }
    {
        match self.named() {
            Some(named) => named == wire,
            None => false,
        }
    }

    /// Whether the other slot names the same handle.
    fn shares_name(&self, other: &Slot) -> bool
        ensures { result ≡ spec.same_name (spec.named self.now) other.now }
    {
        match self.named() {
            None => false,
            Some(wire) => other.names(wire),
        }
    }

    /// Whether the other slot names the same handle, and its call alone may use it.
    fn shares_name_alone(&self, other: &Slot) -> bool
        ensures { result ≡ (spec.same_name (spec.named self.now) other.now && spec.is_exclusive other.now) }
    {
        self.shares_name(other) && other.is_exclusive()
    }

    /// Whether one of the earlier slots of its call names the same handle, and one of all excludes
    /// others from it.
    pub fn repeats(&self, earlier: &[Slot], all: &[Slot]) -> bool
        ensures { result ≡ journal.repeats earlier.now all.now self.now }
    {
        any_shares_name(self, earlier) && any_shares_name_alone(self, all)
    }

    /// Whether it may issue a handle.
    pub fn opens(&self) -> bool
        ensures { result ≡ spec.opens self.now }
    {
        matches!(self, Slot::Opens { .. })
    }

    /// The same with that serial, where it may issue a handle.
    pub fn with_serial(self, serial: u32) -> Slot
        ensures { result ≡ spec.with_serial serial self }
    {
        match self {
            Slot::Opens { kind, .. } => Slot::Opens { kind, serial },
            _ => self,
        }
    }

    /// Whether a call's end may have that result here.
    pub fn suits(&self, outcome: &Outcome) -> bool
        ensures { result ≡ journal.suits self.now outcome.now }
    {
        match (self, outcome) {
            (Slot::Shares { .. } | Slot::Holds { .. } | Slot::Opens { .. }, Outcome::Nothing) => {
                true
            }
            (Slot::Changes { .. }, Outcome::Keep(_) | Outcome::Close) => true,
            (Slot::Opens { serial, .. }, Outcome::Issue { serial: h, .. }) => *h == *serial,
            _ => false,
        }
    }

    /// Whether that result closes the handle here.
    pub fn closes(&self, wire: WireHandle, outcome: &Outcome) -> bool
        ensures { result ≡ journal.closes wire self.now outcome.now }
    {
        match outcome {
            Outcome::Close => self.names(wire),
            _ => false,
        }
    }

    /// The cookie that the handle of that serial has by that result here.
    pub fn gives(&self, home: Home, serial: u32, outcome: &Outcome) -> Option<u64>
        ensures { result ≡ journal.gives home serial self.now outcome.now }
    {
        match outcome {
            Outcome::Issue { serial: h, cookie } if *h == serial => Some(*cookie),
            Outcome::Keep(cookie) if self.names(home.wire(serial)) => Some(*cookie),
            _ => None,
        }
    }
}

impl Outcome {
    /// Whether it issues the handle of that serial.
    pub fn issues(&self, serial: u32) -> bool
        ensures { result ≡ journal.issues serial self.now }
    {
        match self {
            Outcome::Issue { serial: h, .. } => *h == serial,
            _ => false,
        }
    }
}

fn any_shares_name(slot: &Slot, others: &[Slot]) -> bool
    ensures { result ≡ list_any (spec.same_name (spec.named slot.now)) others.now }
{
    others.iter().any(|other| slot.shares_name(other))
}

fn any_shares_name_alone(slot: &Slot, others: &[Slot]) -> bool
    ensures { result ≡ list_any (λ t. spec.same_name (spec.named slot.now) t && spec.is_exclusive t) others.now }
{
    others.iter().any(|other| slot.shares_name_alone(other))
}

fn clashes_any(slot: &Slot, others: &[Slot]) -> bool
    ensures { result ≡ list_any (spec.clash slot.now) others.now }
{
    others.iter().any(|other| slot.clashes(other))
}

/// Whether one of the first slots clashes with one of the second.
pub fn any_clash(first: &[Slot], second: &[Slot]) -> bool
    ensures { result ≡ journal.any_clash first.now second.now }
{
    first.iter().any(|slot| clashes_any(slot, second))
}

/// How many of the slots may issue a handle.
pub fn count_opens(slots: &[Slot]) -> usize
    ensures count { result ≡ length (filter spec.opens slots.now) }
    ensures bound { result ≤ length slots.now }
{
    slots.iter().filter(|slot| slot.opens()).count()
}

/// Whether no two of the slots name one handle, one of the two uses being exclusive.
pub fn names_apart(slots: &[Slot]) -> bool
    ensures { result ≡ sound.names_apart slots.now }
{
    match slots.split_first() {
        None => true,
        Some((slot, later)) => !clashes_any(slot, later) && names_apart(later),
    }
}

/// Whether the serials of the slots that may issue a handle go on from the number.
pub fn follow(number: u64, slots: &[Slot]) -> bool
    requires { number + length slots.now < 2 ^ 64 }
    ensures { result ≡ journal.follow number slots.now }
{
    match slots.split_first() {
        None => true,
        Some((Slot::Opens { serial, .. }, later)) => {
            u64::from(*serial) == number + 1 && follow(number + 1, later)
        }
        Some((_, later)) => follow(number, later),
    }
}

/// Whether the results suit the slots, one by one.
pub fn suit(slots: &[Slot], results: &[Outcome]) -> bool
    ensures { result ≡ journal.suit slots.now results.now }
{
    match (slots.split_first(), results.split_first()) {
        (None, None) => true,
        (Some((slot, slots)), Some((outcome, results))) => {
            slot.suits(outcome) && suit(slots, results)
        }
        _ => false,
    }
}
