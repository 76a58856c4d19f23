//! What ends the waits of a link from other threads.
use mio::Waker;
use std::sync::Wait;
use std::sync::atomic::{AtomicU64, Ordering};
use std::time::Duration;

/// Ends the waits and the rests of one link, from any thread.
#[derive(Drop)]
pub(crate) struct Alarm {
    waker: Waker,
    // 1 where it rang since the last rest, else 0. A rest sleeps on it.
    rang: AtomicU64,
}

impl Alarm {
    /// One that ends the waits of the waker's poll. It hasn't rung yet.
    pub(crate) fn new(waker: Waker) -> Alarm {
        Alarm {
            waker,
            rang: AtomicU64::new(0),
        }
    }

    /// Ends the wait that is under way, or else the next one, and the same of a rest.
    pub(crate) fn ring(&self) {
        if self.rang.swap(1, Ordering::SeqCst) == 0 {
            self.rang.wake_all();
        }
        let _ = self.waker.wake();
    }

    /// Waits until it rings, as it may have since the last rest, and so many milliseconds at most.
    pub(crate) fn rest<R: Wait>(&self, rt: &R, time: u64) {
        if self.rang.swap(0, Ordering::SeqCst) == 0 {
            self.rang.park_timeout(rt, 0, Duration::from_millis(time));
            self.rang.store(0, Ordering::SeqCst);
        }
    }
}
