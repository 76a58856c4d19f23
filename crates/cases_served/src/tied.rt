//! The built-in services, whose calls are tied to what happens on links.
ghost use Rattle.std.specs.Prelude.{◌≡◌, false};

use cases_links::{Flag, Flags, Gates, is_open, open};
use desk_locks::{DeskService, SharedPass};
use desk_told::Telling;
use handle_model::{CookieRow, Due};
use manager_api::{Answer, Probe, Served};
use ndr_value::Message;
use rpc_base::{NoMemory, Status};
use server_calls::{Manager, Service};
use std::alloc::Global;
use std::sync::atomic::{AtomicU32, Ordering};
use std::sync::{Arc, Wait};
use std::thread;

/// How often a call looks for what it waits for at most.
const TRIES: u32 = 20_000_000;

/// How calls run.
#[derive(Clone, Copy, Debug)]
pub struct Running {
    /// In their connection's thread, and else each in one of its own.
    pub is_brief: bool,
    /// How often a call asks whether it was cancelled before it is answered.
    pub asks: u32,
    /// The operation whose calls wait until a link is closed.
    pub held: Option<u16>,
    /// Each call waits for another.
    pub meets: bool,
}

/// By what calls and links wait for one another.
#[derive(Drop)]
pub struct Ties {
    /// A call waits for a link's close, or the first link was closed.
    begun: Option<Flag>,
    /// The link was closed for which calls wait.
    gone: Option<Flag>,
}

fn copied(flag: &Option<Flag>) -> Result<Option<Flag>, NoMemory> {
    match flag {
        Some(flag) => Ok(Some(Arc::try_clone(flag)?)),
        None => Ok(None),
    }
}

impl Ties {
    /// Before anything has happened.
    pub fn new(alloc: Global) -> Result<Ties, NoMemory> {
        let mut flags = Flags::new(alloc);
        Ok(Ties {
            begun: Some(flags.flag(alloc, "begun")?),
            gone: Some(flags.flag(alloc, "gone")?),
        })
    }

    /// The same flags.
    pub fn copy(&self) -> Result<Ties, NoMemory> {
        Ok(Ties {
            begun: copied(&self.begun)?,
            gone: copied(&self.gone)?,
        })
    }

    /// Those of a link, by the word for it: the first and the second of two that are tied, one whose peer ends late, that is once a
    /// call waits, and any other. None where the word is no link's.
    pub fn gates(&self, word: &str) -> Result<Option<Gates>, NoMemory> {
        let mut gates = Gates::new();
        match word {
            "link" => {}
            "first" => gates.closed = copied(&self.begun)?,
            "second" => {
                gates.start = copied(&self.begun)?;
                gates.closed = copied(&self.gone)?;
            }
            "late" => {
                gates.end = copied(&self.begun)?;
                gates.closed = copied(&self.gone)?;
            }
            _ => return Ok(None),
        }
        Ok(Some(gates))
    }
}

/// The built-in services, whose calls run as a case says.
#[derive(Drop)]
pub struct Tied {
    desks: DeskService,
    running: Running,
    ties: Ties,
    entered: AtomicU32,
    rundowns: AtomicU32,
}

/// Whether a probe tells of a cancel, where it is asked so often.
fn is_told<P: Probe>(probe: &mut P, asks: u32) -> bool
    requires { P.told probe.old ≡ false }
    ensures told { P.told probe.new ≡ result }
    ensures key { P.key probe.new ≡ P.key probe.old }
{
    for _ in 0..asks {
        if probe.asked() {
            return true;
        }
        thread::yield_now();
    }
    false
}

impl Tied {
    /// Before the first call.
    pub fn new(desks: DeskService, running: Running, ties: Ties) -> Tied
        ensures { result.desks ≡ desks }
    {
        Tied {
            desks,
            running,
            ties,
            entered: AtomicU32::new(0),
            rundowns: AtomicU32::new(0),
        }
    }

    /// How many handles were run down.
    pub fn rundowns(&self) -> u32 {
        self.rundowns.load(Ordering::SeqCst)
    }

    /// A call waits until a link is closed.
    fn wait(&self) {
        open(&self.ties.begun);
        for _ in 0..TRIES {
            if is_open(&self.ties.gone) {
                return;
            }
            thread::yield_now();
        }
    }

    /// Whether another call begins.
    fn has_company(&self) -> bool {
        self.entered.fetch_add(1, Ordering::SeqCst);
        for _ in 0..TRIES {
            if self.entered.load(Ordering::SeqCst) > 1 {
                return true;
            }
            thread::yield_now();
        }
        false
    }
}

impl Manager for Tied {
    ghost use Rattle.std.specs.Prelude.{⊤};
    ghost use Rattle.desk_locks.specs.Calls.{tables_of};
    ghost use Rattle.desk_locks.specs.Passes.{IsPassOf};

    type Pass = SharedPass;

    ghost tables = { λ s. tables_of s.desks };

    ghost is_pass = { λ s pass. IsPassOf s.desks pass };

    ghost may = { λ s call told answer. ⊤ };

    ghost enters = { λ s before call told answer after. ⊤ };

    ghost runs_down = { λ s before item after. ⊤ };

    ghost splits = { λ s before kept other. ⊤ };

    ghost joins = { λ s before other after. ⊤ };

    fn call<R: Wait, P: Telling>(
        &self,
        rt: &R,
        pass: SharedPass,
        iface: u16,
        op: u16,
        message: Message,
        cookies: CookieRow,
        probe: &mut P,
    ) -> (SharedPass, Answer) {
        if is_told(probe, self.running.asks) {
            return (pass, Answer::Fault(Status::NCA_S_FAULT_CANCEL));
        }
        if self.running.held == Some(op) {
            self.wait();
        }
        if self.running.meets && !self.has_company() {
            return (pass, Answer::Fault(Status::NCA_S_FAULT_UNSPEC));
        }
        self.desks
            .call(rt, pass, iface, op, message, cookies, probe)
    }

    fn is_brief(&self, _iface: u16, _op: u16, _stub: usize) -> bool {
        self.running.is_brief
    }

    fn rundown<R: Wait>(&self, rt: &R, pass: SharedPass, due: Due) -> SharedPass {
        self.rundowns.fetch_add(1, Ordering::SeqCst);
        self.desks.rundown(rt, pass, due)
    }

    fn split(&self, pass: &mut SharedPass) -> SharedPass {
        self.desks.split(pass)
    }

    fn join(&self, pass: &mut SharedPass, other: SharedPass) {
        self.desks.join(pass, other);
    }
}

impl Service for Tied {
    fn served(&self) -> &Served {
        self.desks.served()
    }

    fn alloc(&self) -> Global {
        self.desks.alloc()
    }
}
