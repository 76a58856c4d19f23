//! What the calls of a hub answer.
ghost use Rattle.std.specs.Prelude.{◌≡◌};

use handle_model::DueList;
use std::marker::Model;

/// Why no group was opened.
#[derive(Clone, Copy, Debug, PartialEq, Eq)]
pub enum OpenRefusal {
    /// 64 groups are open.
    GroupsFull,
    /// Every id below 2^32 was opened.
    Ids,
    /// Want of memory.
    Memory,
}

/// How it is known that there is no group of an id to join.
#[derive(Clone, Copy, Debug, PartialEq, Eq)]
pub enum Absence {
    /// The id isn't open by the entries of the directory before this place, counted from 0, where it is
    /// marked as missed.
    Directory(usize),
    /// The group has ended: its journal has so many entries, the last of them the Shut.
    Shut(u128),
}

/// Why a connection was not taken into the group of an id.
#[derive(Clone, Copy, Debug, PartialEq, Eq)]
pub enum FindRefusal {
    NoGroup(Absence),
    /// 64 connections are open.
    TooMany,
    /// The connection's number would pass 32 bits.
    Numbers,
    /// Want of memory.
    Memory,
}

/// What may retire a group that has ended, once. It can't be copied or dropped: `retire` alone ends it.
pub struct ShutKey {
    pub(crate) group: u32,
}

impl Model for ShutKey {
    ghost use Rattle.std.specs.Prelude.{ℕ};

    ghost Value = { ℕ };

    ghost view = { λ k. k.group };
}

impl ShutKey {
    /// The group that it retires.
    pub fn group(&self) -> u32
        ensures { result ≡ self.now }
    {
        self.group
    }
}

/// Whether a group goes on.
pub enum HubRest {
    Stays,
    /// It has ended. These handles are to be run down, and then it is to be retired.
    Shut(DueList, ShutKey),
}

/// That a group was retired.
#[derive(Clone, Copy, Debug, PartialEq, Eq)]
pub struct Retired {
    pub group: u32,
}
