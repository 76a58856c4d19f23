//! Numbers that threads share.

use crate::stats::Stats;
use std::alloc::Global;
use std::sync::Arc;
use std::sync::atomic::{AtomicU64, Ordering};

/// Numbers that several threads add to. At which moment of theirs it is read isn't said, so it may
/// give any numbers.
#[derive(Drop)]
pub struct Tally {
    calls: AtomicU64,
    packets_in: AtomicU64,
    packets_out: AtomicU64,
}

fn shown(word: &AtomicU64) -> u32 {
    word.load(Ordering::SeqCst).min(u64::from(u32::MAX)) as u32
}

impl Tally {
    /// None yet.
    pub fn new() -> Tally {
        Tally {
            calls: AtomicU64::new(0),
            packets_in: AtomicU64::new(0),
            packets_out: AtomicU64::new(0),
        }
    }

    /// Adds so many.
    pub fn add(&self, calls: u32, packets_in: u32, packets_out: u32) {
        self.calls.fetch_add(u64::from(calls), Ordering::SeqCst);
        self.packets_in
            .fetch_add(u64::from(packets_in), Ordering::SeqCst);
        self.packets_out
            .fetch_add(u64::from(packets_out), Ordering::SeqCst);
    }
}

impl Stats for Tally {
    ghost gives = { λ tally numbers. Unit {0} };

    fn read(&self) -> [u32; 4] {
        [
            shown(&self.calls),
            0,
            shown(&self.packets_in),
            shown(&self.packets_out),
        ]
    }
}

impl Stats for Arc<Tally, Global> {
    ghost gives = { λ tally numbers. Unit {0} };

    fn read(&self) -> [u32; 4] {
        (**self).read()
    }
}
