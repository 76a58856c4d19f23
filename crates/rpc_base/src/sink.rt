//! Outputs that take octets.
ghost use Rattle.std.specs.Prelude.{◌≡◌, ℕ, ◌+◌, ◌-◌, ◌<◌, ◌≤◌, List, [], ◌++◌, Option, Some, length, take, drop, min, IfOk, OnOk, OnErr};
ghost use Rattle.std.specs.Io.KnownBytes.{append_known};
ghost use Rattle.rpc_base.specs.Causes.{HasCause};

use crate::{Failed, Numbers, Octets};
use std::alloc::Global;

/// An output that takes octets.
pub trait Sink {
    /// How often it has failed.
    ghost faults: { Self → ℕ };

    /// The octets written, where it tells them.
    ghost written: { Self → Option (List ℕ) };

    /// Takes some of the piece from its front, and answers how many octets. At `Failed` it took none.
    fn put(&mut self, piece: &[u8]) -> Result<usize, Failed>
        requires { 0 < length piece.now }
        ensures some { IfOk result (λ n. 0 < n) }
        ensures at_most { IfOk result (λ n. n ≤ length piece.now) }
        ensures written { IfOk result (λ n. written self.new ≡ append_known (written self.old) (take n piece.now)) }
        ensures same { OnErr result (written self.new ≡ written self.old) }
        ensures cause { HasCause (faults self.old) (faults self.new) result };
}

/// Puts a whole text, in as many calls as it takes. At `Failed` a front of the text was taken.
///
/// # Errors
///
/// `Failed` where the sink fails; a front of the text was taken then.
pub fn put_all<S: Sink>(sink: &mut S, text: &[u8]) -> Result<(), Failed>
    ensures written { OnOk result (S.written sink.new ≡ append_known (S.written sink.old) text.now) }
    ensures front { OnErr result ((k : ℕ) × (S.written sink.new ≡ append_known (S.written sink.old) (take k text.now))) }
    ensures cause { HasCause (S.faults sink.old) (S.faults sink.new) result }
{
    let mut done = 0;
    while done < text.len() {
        done += sink.put(&text[done..])?;
    }
    Ok(())
}

/// An output in memory. The puts whose numbers, from 1, are listed fail, and so does one that finds
/// no memory.
#[derive(Debug, Drop)]
pub struct VecSink {
    failing: Numbers,
    written: Octets,
    calls: u64,
    faults: u64,
}

impl VecSink {
    pub fn new(alloc: Global, failing: Numbers) -> Self
        ensures empty { result.written ≡ [] }
        ensures failing { result.failing ≡ failing }
        ensures unused { (result.calls ≡ 0) × (result.faults ≡ 0) }
    {
        VecSink {
            failing,
            written: Octets::new(alloc),
            calls: 0,
            faults: 0,
        }
    }

    /// The octets taken so far.
    pub fn written(&self) -> &Octets
        ensures { result.now ≡ self.now.written }
    {
        &self.written
    }
}

impl Sink for VecSink {
    ghost faults = { λ s. s.faults };

    ghost written = { λ s. Some s.written };

    fn put(&mut self, piece: &[u8]) -> Result<usize, Failed> {
        self.calls = self.calls.saturating_add(1);
        if self.failing.as_slice().contains(&self.calls) || self.written.append(piece).is_err() {
            self.faults = self.faults.saturating_add(1);
            return Err(Failed);
        }
        Ok(piece.len())
    }
}
