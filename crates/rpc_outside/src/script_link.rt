//! Links in memory.
ghost use Rattle.std.specs.Prelude.{◌≡◌, ◌≤◌, ◌<◌, ℕ, length, [], None, false};

use crate::link::{Link, Taken};
use crate::script::{LinkSteps, Script};
use rpc_base::{Failed, Numbers, Octets};
use std::alloc::Global;

/// A link in memory, whose peer does what a script says. The takes and the puts whose numbers, from
/// 1, are listed fail, and so does a put that finds no memory. Takes and puts are counted apart.
#[derive(Debug, Drop)]
pub struct ScriptLink {
    script: Script,
    most: usize,
    failing_takes: Numbers,
    failing_puts: Numbers,
    written: Octets,
    put_at_end: Option<usize>,
    closed: bool,
    takes: u64,
    puts: u64,
    faults: u64,
    quiets: u64,
    ends: u64,
    ghost takes_some: { 1 ≤ most },
}

impl ScriptLink {
    ghost use Rattle.std.specs.Prelude.{true};
    ghost use Rattle.rpc_outside.specs.LinkLists.{is_new};
    ghost use Rattle.rpc_outside.specs.ScriptLinks.{shown, opening};

    /// A new link, of whose pieces one put takes so many octets at most.
    pub fn new(
        alloc: Global,
        steps: LinkSteps,
        most: usize,
        failing_takes: Numbers,
        failing_puts: Numbers,
    ) -> ScriptLink
        requires { 1 ≤ most }
        ensures shown { shown result ≡ opening steps }
        ensures new { is_new result ≡ true }
        ensures most { result.most ≡ most }
        ensures failing { (result.failing_takes ≡ failing_takes) × (result.failing_puts ≡ failing_puts) }
        ensures unused { (result.takes ≡ 0) × (result.puts ≡ 0) }
    {
        ScriptLink {
            script: Script::new(steps),
            most,
            failing_takes,
            failing_puts,
            written: Octets::new(alloc),
            put_at_end: None,
            closed: false,
            takes: 0,
            puts: 0,
            faults: 0,
            quiets: 0,
            ends: 0,
        }
    }

    /// The octets that were put on it so far.
    pub fn written(&self) -> &Octets
        ensures { result.now ≡ self.now.written }
    {
        &self.written
    }
}

impl Link for ScriptLink {
    ghost use Rattle.std.specs.Prelude.{◌+◌, ◌^◌, ◌-◌, ◌↔◌, true, min, Contains, IfOk, OnOk, OnErr, IsErr};
    ghost use Rattle.rpc_outside.specs.Links.{Takes, Puts};
    ghost use Rattle.rpc_outside.specs.Scripts.{Plays, after_put};
    ghost use Rattle.rpc_outside.specs.ScriptLinks.{shown};

    ghost shows = { shown };

    fn take(&mut self, into: &mut [u8]) -> Result<Taken, Failed>
        requires is_open { (shown self.old).closed ≡ false }
        requires room { 0 < length into.old }
        ensures takes { Takes (shown self.old) into.new result (shown self.new) }
        ensures plays { IfOk result (λ taken. Plays self.old.script into.new taken self.new.script) }
        ensures fails { IsErr result ↔ Contains self.old.failing_takes (min (self.old.takes + 1) (2 ^ 64 - 1)) }
        ensures waits { OnErr result (self.new.script ≡ self.old.script) }
        ensures counted { (self.new.takes ≡ min (self.old.takes + 1) (2 ^ 64 - 1)) × (self.new.puts ≡ self.old.puts) }
        ensures same { (self.new.most ≡ self.old.most) × (self.new.failing_takes ≡ self.old.failing_takes) × (self.new.failing_puts ≡ self.old.failing_puts) }
    {
        self.takes = self.takes.saturating_add(1);
        if self.failing_takes.as_slice().contains(&self.takes) {
            self.faults = self.faults.saturating_add(1);
            return Err(Failed);
        }
        let taken = self.script.take(into);
        match taken {
            Taken::Bytes(_) => {}
            Taken::Quiet => self.quiets = self.quiets.saturating_add(1),
            Taken::End => {
                self.ends = self.ends.saturating_add(1);
                self.put_at_end = self.put_at_end.or(Some(self.written.len()));
            }
        }
        Ok(taken)
    }

    fn put(&mut self, piece: &[u8]) -> Result<usize, Failed>
        requires is_open { (shown self.old).closed ≡ false }
        requires some { 0 < length piece.now }
        ensures puts { Puts (shown self.old) piece.now result (shown self.new) }
        ensures most { IfOk result (λ count. count ≡ min (length piece.now) self.old.most) }
        ensures plays { OnOk result (self.new.script.rest ≡ after_put self.old.script.rest) }
        ensures fails { Contains self.old.failing_puts (min (self.old.puts + 1) (2 ^ 64 - 1)) → IsErr result }
        ensures waits { OnErr result (self.new.script ≡ self.old.script) }
        ensures counted { (self.new.puts ≡ min (self.old.puts + 1) (2 ^ 64 - 1)) × (self.new.takes ≡ self.old.takes) }
        ensures same { (self.new.most ≡ self.old.most) × (self.new.failing_takes ≡ self.old.failing_takes) × (self.new.failing_puts ≡ self.old.failing_puts) }
    {
        self.puts = self.puts.saturating_add(1);
        let count = piece.len().min(self.most);
        if self.failing_puts.as_slice().contains(&self.puts)
            || self.written.append(&piece[..count]).is_err()
        {
            self.faults = self.faults.saturating_add(1);
            return Err(Failed);
        }
        self.script.see_put();
        Ok(count)
    }

    fn close(&mut self)
        ensures same { self.new ≡ record self.old { closed = true } }
    {
        self.closed = true;
    }
}
