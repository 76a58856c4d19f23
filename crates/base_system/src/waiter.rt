//! Waiting for a socket.
use crate::alarm::Alarm;
use mio::event::Source;
use mio::{Events, Interest, Poll, Token, Waker};
use rpc_base::{Failed, OutFault};
use std::alloc::Global;
use std::net::Net;
use std::sync::{Arc, OnceLock};
use std::time::Duration;

/// How long a turn lasts at most, in milliseconds.
pub(crate) const TURN: u64 = 10;

/// How long a wait lasts at most that only a socket or a bell ends, in milliseconds.
pub(crate) const REST: u64 = 10_000;

/// Waits until its one socket is ready or its alarm rings.
#[derive(Drop)]
pub(crate) struct Waiter {
    poll: Poll,
    events: Events,
    // Whether a wait ended with a report that goes on behind a read.
    saw_more: bool,
    alloc: Global,
    // Made when it is first wanted, since it takes a descriptor.
    alarm: OnceLock<Arc<Alarm, Global>>,
}

impl Waiter {
    /// One that waits for no socket yet.
    pub(crate) fn new(net: &impl Net, alloc: Global) -> Result<Waiter, OutFault> {
        let events = Events::with_capacity(alloc, 1)?;
        match Poll::new(net) {
            Ok(poll) => Ok(Waiter {
                poll,
                events,
                saw_more: false,
                alloc,
                alarm: OnceLock::new(),
            }),
            Err(_) => Err(OutFault::Failed),
        }
    }

    /// From now on it waits until this socket can be read, or written.
    pub(crate) fn watch<S: Source>(&self, socket: &mut S, what: Interest) -> Result<(), Failed> {
        match self.poll.registry().register(socket, Token(0), what) {
            Ok(()) => Ok(()),
            Err(_) => Err(Failed),
        }
    }

    /// The same of the socket that it waits for already. What the socket is ready for is reported again.
    pub(crate) fn watch_again<S: Source>(
        &self,
        socket: &mut S,
        what: Interest,
    ) -> Result<(), Failed> {
        match self.poll.registry().reregister(socket, Token(0), what) {
            Ok(()) => Ok(()),
            Err(_) => Err(Failed),
        }
    }

    /// Waits for so many milliseconds, or until the socket is ready or its alarm rings.
    pub(crate) fn wait(&mut self, time: u64) -> Result<(), Failed> {
        if self
            .poll
            .poll(&mut self.events, Some(Duration::from_millis(time)))
            .is_err()
        {
            return Err(Failed);
        }
        for event in self.events.iter() {
            if event.is_read_closed() || event.is_priority() {
                self.saw_more = true;
            }
        }
        Ok(())
    }

    /// Whether a wait so far ended with the report that the peer sends no more, or urgent data. It isn't reported again behind a
    /// read of the octets before.
    pub(crate) fn saw_more(&self) -> bool {
        self.saw_more
    }

    /// Whether the last wait ended since the socket was ready or the alarm rang, and not for its time.
    pub(crate) fn was_woken(&self) -> bool {
        !self.events.is_empty()
    }

    /// What ends a wait, or else the next one, from any thread.
    pub(crate) fn alarm(&self) -> Result<Arc<Alarm, Global>, OutFault> {
        if let Some(alarm) = self.alarm.get() {
            return Ok(Arc::try_clone(alarm)?);
        }
        let Ok(waker) = Waker::new(self.poll.registry(), Token(1)) else {
            return Err(OutFault::Failed);
        };
        let made = Arc::new(self.alloc, Alarm::new(waker))?;
        let given = Arc::try_clone(&made)?;
        match self.alarm.try_set(made) {
            Ok(_) => Ok(given),
            Err(_) => Err(OutFault::Failed),
        }
    }
}
