//! The words of a line, and their lists.
ghost use Rattle.std.specs.Prelude.{◌≡◌, ◌++◌, OnOk};
ghost use Rattle.journal_text.specs.Texts as spec;

use base_words::{put, put_decimal, put_hex_u32, put_hex_u128, put_octets};
use handle_model::{DueItem, Outcome, Said, Slot};
use rpc_base::{NoMemory, Order, WireHandle};
use std::alloc::Global;

/// What has a text in a line.
pub(crate) trait Text {
    ghost use Rattle.std.specs.Prelude.{List, ℕ};

    ghost text: { Self → List ℕ };

    /// Adds the text.
    fn put_text(&self, alloc: Global, into: &mut Vec<u8>) -> Result<(), NoMemory>
        ensures { OnOk result (into.new.items ≡ into.old.items ++ text self.now) };
}

fn put_tail<T: Text>(alloc: Global, items: &[T], into: &mut Vec<u8>) -> Result<(), NoMemory>
    ensures { OnOk result (into.new.items ≡ into.old.items ++ spec.tail_text T.text items.now) }
{
    for item in items {
        put(b",", into)?;
        item.put_text(alloc, into)?;
    }
    Ok(())
}

/// The texts of the items, joined by commas; `-` where there is none.
pub(crate) fn put_list<T: Text>(
    alloc: Global,
    items: &[T],
    into: &mut Vec<u8>,
) -> Result<(), NoMemory>
    ensures { OnOk result (into.new.items ≡ into.old.items ++ spec.list_text T.text items.now) }
{
    match items.split_first() {
        None => put(b"-", into),
        Some((item, later)) => {
            item.put_text(alloc, into)?;
            put_tail(alloc, later, into)
        }
    }
}

fn put_wire(alloc: Global, wire: WireHandle, into: &mut Vec<u8>) -> Result<(), NoMemory>
    ensures { OnOk result (into.new.items ≡ into.old.items ++ spec.wire_text wire) }
{
    put_hex_u32(alloc, wire.attributes, into)?;
    put_hex_u128(alloc, wire.id, into)
}

#[tactic(auto, unfolding(crate::specs::Texts::use_word))]
fn use_word(slot: &Slot) -> &'static [u8]
    ensures { result.now ≡ spec.use_word slot.now }
{
    match slot {
        Slot::Shares { .. } => b"shares:",
        Slot::Holds { .. } => b"holds:",
        Slot::Changes { .. } => b"changes:",
        Slot::Opens { .. } => b"opens:",
    }
}

fn put_object(alloc: Global, slot: &Slot, into: &mut Vec<u8>) -> Result<(), NoMemory>
    ensures { OnOk result (into.new.items ≡ into.old.items ++ spec.object_text slot.now) }
{
    match slot {
        Slot::Shares { wire, .. } | Slot::Holds { wire, .. } | Slot::Changes { wire, .. } => {
            put_wire(alloc, *wire, into)
        }
        Slot::Opens { serial, .. } => put_decimal(alloc, u64::from(*serial), into),
    }
}

impl Text for Slot {
    ghost text = { spec.slot_text };

    fn put_text(&self, alloc: Global, into: &mut Vec<u8>) -> Result<(), NoMemory> {
        put(use_word(self), into)?;
        put_decimal(alloc, u64::from(self.kind()), into)?;
        put(b":", into)?;
        put_object(alloc, self, into)
    }
}

impl Text for Outcome {
    ghost text = { spec.outcome_text };

    fn put_text(&self, alloc: Global, into: &mut Vec<u8>) -> Result<(), NoMemory> {
        match self {
            Outcome::Keep(cookie) => {
                put(b"keep:", into)?;
                put_decimal(alloc, *cookie, into)?;
            }
            Outcome::Close => put(b"close", into)?,
            Outcome::Issue { serial, cookie } => {
                put(b"issue:", into)?;
                put_decimal(alloc, u64::from(*serial), into)?;
                put(b":", into)?;
                put_decimal(alloc, *cookie, into)?;
            }
            Outcome::Nothing => put(b"none", into)?,
        }
        Ok(())
    }
}

impl Text for Option<u64> {
    ghost text = { spec.cookie_text };

    fn put_text(&self, alloc: Global, into: &mut Vec<u8>) -> Result<(), NoMemory> {
        match self {
            None => put(b"none", into),
            Some(cookie) => put_decimal(alloc, *cookie, into),
        }
    }
}

impl Text for DueItem {
    ghost text = { spec.due_text };

    fn put_text(&self, alloc: Global, into: &mut Vec<u8>) -> Result<(), NoMemory> {
        put_decimal(alloc, u64::from(self.serial), into)?;
        put(b":", into)?;
        put_decimal(alloc, u64::from(self.kind), into)?;
        put(b":", into)?;
        put_decimal(alloc, self.cookie, into)
    }
}

impl Text for u32 {
    ghost use Rattle.std.specs.Prelude.{decimal};

    ghost text = { decimal };

    fn put_text(&self, alloc: Global, into: &mut Vec<u8>) -> Result<(), NoMemory> {
        put_decimal(alloc, u64::from(*self), into)
    }
}

impl Text for Said {
    ghost text = { spec.said_text };

    fn put_text(&self, alloc: Global, into: &mut Vec<u8>) -> Result<(), NoMemory> {
        match self {
            Said::Out(stub) => {
                put(b"out:", into)?;
                put_octets(alloc, stub.as_slice(), into)?;
            }
            Said::Fault(status) => {
                put(b"fault:", into)?;
                put_hex_u32(alloc, status.0, into)?;
            }
        }
        Ok(())
    }
}

#[tactic(auto, unfolding(crate::specs::Texts::order_text))]
pub(crate) fn order_word(order: Order) -> &'static [u8]
    ensures { result.now ≡ spec.order_text order }
{
    match order {
        Order::Big => b"big",
        Order::Little => b"little",
    }
}

#[tactic(auto, unfolding(crate::specs::Texts::reply_text))]
pub(crate) fn reply_word(reply: bool) -> &'static [u8]
    ensures { result.now ≡ spec.reply_text reply }
{
    if reply { b"answer" } else { b"maybe" }
}

/// A word, a space and a number.
#[tactic(auto, unfolding(crate::specs::Texts::headed))]
pub(crate) fn put_head(
    alloc: Global,
    word: &[u8],
    number: u64,
    into: &mut Vec<u8>,
) -> Result<(), NoMemory>
    ensures { OnOk result (into.new.items ≡ into.old.items ++ spec.headed word.now number) }
{
    put(word, into)?;
    put(b" ", into)?;
    put_decimal(alloc, number, into)
}
