//! What is written to the system. Its faults are counted, and what was written isn't told.
ghost use Rattle.std.specs.Prelude.{None, ◌≤◌, length, IfOk, ◌<◌};

use rpc_base::{Failed, Sink};
use std::io::Write;

/// A writer of the system.
#[derive(Drop)]
pub struct Output<W: Write> {
    writer: W,
    /// How many puts were refused.
    pub faults: u64,
}

impl<W: Write> Output<W> {
    /// A writer to which nothing was put.
    pub fn new(writer: W) -> Self {
        Output { writer, faults: 0 }
    }
}

impl<W: Write> Sink for Output<W> {
    ghost faults = { λ s. s.faults };

    ghost written = { λ _. None };

    fn put(&mut self, piece: &[u8]) -> Result<usize, Failed> {
        match self.writer.write(piece) {
            Ok(count) if count > 0 => Ok(count),
            _ => {
                self.faults = self.faults.saturating_add(1);
                Err(Failed)
            }
        }
    }
}
