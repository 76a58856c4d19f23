//! Connected sockets.
ghost use Rattle.std.specs.Prelude.{◌<◌, length, IfOk, IfSome};
ghost use Rattle.base_system.specs.Sockets.{Gives, IsSome};

use crate::alarm::Alarm;
use crate::habit::Habit;
use crate::waiter::{REST, TURN, Waiter};
use mio::Interest;
use mio::net::TcpStream;
use rpc_base::{Failed, OutFault};
use rpc_outside::Taken;
use std::alloc::Global;
use std::io::{ErrorKind, Read, Write};
use std::net::Shutdown;
use std::sync::Arc;
use std::sync::atomic::{AtomicBool, Ordering};

/// How long a take that looks again and again waits at most behind octets, in milliseconds. Each further one waits twice as
/// long, up to a turn.
const SHORT: u64 = 1;

/// How many turns a call may wait for the peer.
const MOST_TURNS: u64 = 6_000;

/// How long a peer may say nothing at first that a take waits for, in milliseconds.
const MOST_SILENCE: u64 = TURN * MOST_TURNS;

/// How many whole turns a peer is waited for at most, once the connection is to end.
const LAST_TURNS: u32 = 200;

/// How often a peer that goes on sending is looked at at most, once the connection is to end: each of its
/// pieces takes a read, and another that finds nothing more.
const LAST_READS: u32 = 32_768;

/// How long a take waits where nothing came.
#[derive(Clone, Copy, PartialEq, Eq)]
pub(crate) enum Patience {
    /// A turn at most, so that whoever calls counts the turns.
    Turns,
    /// Until octets come or a bell is rung.
    Rests,
}

/// A connected socket, and what waits for it. It waits until octets come, but for a put that doesn't
/// find room.
#[derive(Drop)]
pub(crate) struct Connection {
    stream: TcpStream,
    waiter: Waiter,
    patience: Patience,
    // Whether a take doesn't wait at all.
    is_hasty: AtomicBool,
    // Whether the last read left nothing in the socket, so that whatever comes next ends a wait.
    is_drained: bool,
    habit: Habit,
    // How long the next take of a turn waits at most, in milliseconds.
    pause: u64,
    // How long nothing came at first, in milliseconds; none once octets came.
    silence: Option<u64>,
    // How many milliseconds were waited for room since a piece was last put whole.
    stalled: u64,
    // Whether anything was put.
    has_put: bool,
}

impl Connection {
    /// A socket that is connected, or about to be. What is put on it goes out at once, however little it is.
    pub(crate) fn new(
        mut stream: TcpStream,
        waiter: Waiter,
        patience: Patience,
    ) -> Result<Connection, OutFault> {
        if stream.set_nodelay(true).is_err() {
            return Err(OutFault::Failed);
        }
        match waiter.watch(&mut stream, to_read()) {
            Ok(()) => Ok(Connection {
                stream,
                waiter,
                patience,
                is_hasty: AtomicBool::new(false),
                is_drained: false,
                habit: Habit::new(),
                pause: SHORT,
                silence: Some(0),
                stalled: 0,
                has_put: false,
            }),
            Err(Failed) => Err(OutFault::Failed),
        }
    }

    /// Waits until the peer has answered.
    pub(crate) fn wait_connected(&mut self) -> Result<(), Failed> {
        self.waiter
            .watch_again(&mut self.stream, Interest::WRITABLE)?;
        for _ in 0..MOST_TURNS {
            self.waiter.wait(TURN)?;
            if !matches!(self.stream.take_error(), Ok(None)) {
                return Err(Failed);
            }
            if self.stream.peer_addr().is_ok() {
                return self.waiter.watch_again(&mut self.stream, to_read());
            }
        }
        Err(Failed)
    }

    /// What ends a take that waits.
    pub(crate) fn alarm(&self) -> Result<Arc<Alarm, Global>, OutFault> {
        self.waiter.alarm()
    }

    /// Whether takes don't wait.
    pub(crate) fn set_hasty(&self, is_hasty: bool) {
        self.is_hasty.store(is_hasty, Ordering::SeqCst);
    }

    /// Takes what came, and waits where nothing did. Where the last read left nothing it may wait before it looks.
    pub(crate) fn take(&mut self, into: &mut [u8]) -> Result<Taken, Failed>
        requires { 0 < length into.old }
        ensures { Gives (length into.new) result }
    {
        let was_drained = self.is_drained;
        if !was_drained || self.habit.looks() {
            let taken = self.read(into)?;
            if was_drained {
                self.habit.learn(taken != Taken::Quiet);
            }
            if taken != Taken::Quiet {
                return Ok(taken);
            }
        }
        self.wait_octets()?;
        self.read(into)
    }

    // Waits for octets, as long as the link's patience goes. A peer that said nothing for a minute failed.
    fn wait_octets(&mut self) -> Result<(), Failed> {
        if self.is_hasty.load(Ordering::SeqCst) {
            return Ok(());
        }
        if self.patience == Patience::Turns {
            let time = self.pause;
            self.pause = time.saturating_mul(2).min(TURN);
            return self.waiter.wait(time);
        }
        let silence = self.silence.unwrap_or(0);
        if silence >= MOST_SILENCE {
            return Err(Failed);
        }
        self.waiter.wait(REST)?;
        if self.silence.is_some() && !self.waiter.was_woken() {
            self.silence = Some(silence.saturating_add(REST));
        }
        Ok(())
    }

    // A socket is reported once for what comes. A read that fills less than its room leaves nothing, and what comes
    // later is reported anew. Not so where an end was reported with the octets before it, or urgent data, at which a read stops.
    fn read(&mut self, into: &mut [u8]) -> Result<Taken, Failed>
        requires { 0 < length into.old }
        ensures { Gives (length into.new) result }
    {
        match self.stream.read(into) {
            Ok(0) => Ok(Taken::End),
            Ok(count) => {
                self.is_drained = count < into.len() && !self.waiter.saw_more();
                self.pause = SHORT;
                self.silence = None;
                Ok(Taken::Bytes(count))
            }
            Err(error) if is_passing(error.kind()) => Ok(Taken::Quiet),
            Err(_) => Err(Failed),
        }
    }

    /// Puts a front of the piece, and waits for room where there is none: a minute in all, between two pieces that are put
    /// whole.
    pub(crate) fn put(&mut self, piece: &[u8]) -> Result<usize, Failed>
        ensures { IfOk result (λ count. IsSome (length piece.now) count) }
    {
        self.has_put = true;
        let put = self.put_some(piece);
        if put == Ok(piece.len()) {
            self.stalled = 0;
        }
        put
    }

    fn put_some(&mut self, piece: &[u8]) -> Result<usize, Failed>
        ensures { IfOk result (λ count. IsSome (length piece.now) count) }
    {
        match self.write(piece)? {
            Some(count) => Ok(count),
            None => {
                let put = self.put_waiting(piece);
                // A take that isn't told of octets finds them when it looks next.
                let _ = self.waiter.watch_again(&mut self.stream, to_read());
                put
            }
        }
    }

    fn put_waiting(&mut self, piece: &[u8]) -> Result<usize, Failed>
        ensures { IfOk result (λ count. IsSome (length piece.now) count) }
    {
        self.is_drained = false;
        self.waiter
            .watch_again(&mut self.stream, Interest::WRITABLE)?;
        for _ in 0..MOST_TURNS {
            self.waiter.wait(TURN)?;
            let time = if self.waiter.was_woken() { 1 } else { TURN };
            self.stalled = self.stalled.saturating_add(time);
            if self.stalled > TURN * MOST_TURNS {
                return Err(Failed);
            }
            if let Some(count) = self.write(piece)? {
                return Ok(count);
            }
        }
        Err(Failed)
    }

    // None where there is no room for an octet.
    fn write(&mut self, piece: &[u8]) -> Result<Option<usize>, Failed>
        ensures { IfOk result (λ put. IfSome put (λ count. IsSome (length piece.now) count)) }
    {
        match self.stream.write(piece) {
            Ok(0) => Err(Failed),
            Ok(count) => Ok(Some(count)),
            Err(error) if is_passing(error.kind()) => Ok(None),
            Err(_) => Err(Failed),
        }
    }

    /// Ends the connection. What was put reaches the peer: the peer is told that no more comes, and
    /// what it still sends is read and dropped for some turns, since a socket that is closed with octets
    /// unread takes back what the peer hasn't read yet. A turn that the peer cuts short by sending isn't
    /// counted among these. Where nothing was put, nothing can be taken back, and it ends at once.
    pub(crate) fn part(mut self) {
        let _ = self.stream.shutdown(Shutdown::Write);
        if !self.has_put {
            return;
        }
        let mut dropped = [0u8; 4096];
        let mut turns = 0;
        for _ in 0..LAST_READS {
            match self.read(&mut dropped) {
                Ok(Taken::Bytes(_)) => {}
                Ok(Taken::Quiet) if turns < LAST_TURNS => {
                    if self.waiter.wait(TURN).is_err() {
                        return;
                    }
                    if !self.waiter.was_woken() {
                        turns += 1;
                    }
                }
                Ok(Taken::Quiet | Taken::End) | Err(Failed) => return,
            }
        }
    }
}

// What a take waits for. Urgent data is no octets of the stream, but a read stops where it stood.
fn to_read() -> Interest {
    Interest::READABLE | Interest::PRIORITY
}

// Whether the call is to be made again later.
fn is_passing(kind: ErrorKind) -> bool {
    kind == ErrorKind::WouldBlock || kind == ErrorKind::Interrupted
}
