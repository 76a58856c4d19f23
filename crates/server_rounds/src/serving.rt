//! A round in the middle.
ghost use Rattle.std.specs.Prelude.{◌≡◌, ◌+◌, ◌<◌, ◌≤◌, ◌++◌, [], ◌∷◌, vec_len, vec_capacity, OnOk, IsTrue};
ghost use Rattle.std.specs.Arc.{arc_value};
ghost use Rattle.std.specs.VecDeque.{deque_len, deque_capacity};
ghost use Rattle.rpc_outside.specs.Links.{IsNew};
ghost use Rattle.group_hub.specs.Passes.{IsPassOf};
ghost use Rattle.server_rounds.specs.Serving.{IsServing, HasRoom, links_of, Keeps, Same};
ghost use Rattle.server_rounds.specs.Desks.{ServingHad};

use crate::running::Running;
use crate::settled::Settled;
use group_hub::{Hub, Pass};
use rpc_base::NoMemory;
use rpc_outside::Link;
use server_calls::Service;
use std::alloc::Global;
use std::collections::VecDeque;
use std::mem;
use std::snapshot::Snapshot;
use std::sync::atomic::{AtomicBool, AtomicU64};
use std::sync::{Arc, Wait};
use std::thread::Threads;
use std::time::Duration;

/// Behind how many connections the threads of those that are over are joined. A thread that isn't joined keeps its stack.
const SWEEP: u32 = 64;

/// For each so many that are looked at, they are joined once less often, so that a connection costs no more looks the more there
/// are.
const MANY: usize = 1_024;

/// How often room is looked for where there is none, and how long each look rests before the next, in milliseconds: a minute in all,
/// in which connections that end give their memory back.
const MOST_LOOKS: u32 = 600;

const REST: u64 = 100;

/// The connections of a round so far: those that are over, and behind them those that are being served.
#[derive(Drop)]
pub(crate) struct Serving<S: Service, K: Link> {
    pub(crate) pass: Pass,
    /// The manager's pass.
    pub(crate) desks: S::Pass,
    pub(crate) finished: Vec<Settled<K>>,
    pub(crate) running: VecDeque<Running<S, K>>,
    pub(crate) service: Snapshot<S>,
    pub(crate) first: Snapshot<Pass>,
    pub(crate) first_desks: Snapshot<S::Pass>,
}

impl<S: Service, K: Link> Serving<S, K> {
    /// No connection yet. It takes no memory.
    pub(crate) fn new(
        alloc: Global,
        service: &S,
        hub: &Hub,
        pass: Pass,
        desks: S::Pass,
    ) -> Serving<S, K>
        requires pass { IsPassOf hub.now pass }
        requires desks { S.is_pass service.now desks }
        ensures serving { IsServing K.shows S.may S.tables hub.now result }
        ensures had { ServingHad S.tables S.is_pass S.enters S.runs_down S.splits S.joins hub.now result }
        ensures service { result.service.value ≡ service.now }
        ensures first { result.first.value ≡ pass }
        ensures first_desks { result.first_desks.value ≡ desks }
        ensures links { links_of result ≡ [] }
    {
        let _ = hub;
        Serving {
            first: Snapshot::of(&pass),
            first_desks: Snapshot::of(&desks),
            pass,
            desks,
            finished: Vec::new(alloc),
            running: VecDeque::new(alloc),
            service: Snapshot::of(service),
        }
    }

    /// Makes room for one connection more, and what will tell that it is over.
    pub(crate) fn make_room(&mut self, alloc: Global) -> Result<Arc<AtomicBool, Global>, NoMemory>
        ensures same { Same self.old self.new }
        ensures room { OnOk result (HasRoom self.new) }
    {
        let Some(wanted) = self.running.len().checked_add(1) else {
            return Err(NoMemory);
        };
        self.running.reserve(1)?;
        self.finished.reserve(wanted)?;
        Ok(Arc::new(alloc, AtomicBool::new(false))?)
    }

    /// Makes room for one connection more, as `make_room` does. Where there is no memory for it, it waits up to a minute for those that
    /// are being served to give theirs back.
    #[tactic(auto, using(crate::proofs::Desks::had_same))]
    pub(crate) fn await_room<R: Wait + Threads>(
        &mut self,
        rt: &R,
        alloc: Global,
        service: &S,
        hub: &Hub,
    ) -> Result<Arc<AtomicBool, Global>, NoMemory>
        requires service { self.old.service.value ≡ service.now }
        requires serving { IsServing K.shows S.may S.tables hub.now self.old }
        requires had { ServingHad S.tables S.is_pass S.enters S.runs_down S.splits S.joins hub.now self.old }
        ensures serving { IsServing K.shows S.may S.tables hub.now self.new }
        ensures had { ServingHad S.tables S.is_pass S.enters S.runs_down S.splits S.joins hub.now self.new }
        ensures keeps { Keeps self.old self.new }
        ensures links { links_of self.new ≡ links_of self.old }
        ensures room { OnOk result (HasRoom self.new) }
    {
        for _ in 0..MOST_LOOKS {
            if let Ok(over) = self.make_room(alloc) {
                return Ok(over);
            }
            AtomicU64::new(0).park_timeout(rt, 0, Duration::from_millis(REST));
            self.settle_over(rt, service, hub);
        }
        Err(NoMemory)
    }

    /// Serves one connection more, with a pass that is split off.
    pub(crate) fn start<R: Wait + Threads + Send + Sync + Copy + 'static>(
        &mut self,
        rt: R,
        service: &Arc<S, Global>,
        hub: &Arc<Hub, Global>,
        over: Arc<AtomicBool, Global>,
        link: K,
    )
    where
        S: Send + Sync + Drop + 'static,
        S::Pass: 'static,
        K: 'static,
        requires serving { IsServing K.shows S.may S.tables (arc_value hub.now) self.old }
        requires had { ServingHad S.tables S.is_pass S.enters S.runs_down S.splits S.joins (arc_value hub.now) self.old }
        requires service { self.old.service.value ≡ arc_value service.now }
        requires room { HasRoom self.old }
        requires new { IsNew (K.shows link) }
        ensures serving { IsServing K.shows S.may S.tables (arc_value hub.now) self.new }
        ensures had { ServingHad S.tables S.is_pass S.enters S.runs_down S.splits S.joins (arc_value hub.now) self.new }
        ensures keeps { Keeps self.old self.new }
        ensures links { links_of self.new ≡ links_of self.old ++ link ∷ [] }
    {
        let pass = (**hub).split(&mut self.pass);
        let desks = (**service).split(&mut self.desks);
        let running = Running::start(rt, service, hub, over, pass, desks, link);
        self.running.push_back_reserved(running);
    }

    /// Waits until the first of those that are being served is over, and takes in its pass.
    pub(crate) fn settle_first<R: Threads>(&mut self, rt: &R, service: &S, hub: &Hub)
        requires serving { IsServing K.shows S.may S.tables hub.now self.old }
        requires had { ServingHad S.tables S.is_pass S.enters S.runs_down S.splits S.joins hub.now self.old }
        requires service { self.old.service.value ≡ service.now }
        requires some { 0 < deque_len self.old.running }
        ensures serving { IsServing K.shows S.may S.tables hub.now self.new }
        ensures had { ServingHad S.tables S.is_pass S.enters S.runs_down S.splits S.joins hub.now self.new }
        ensures keeps { Keeps self.old self.new }
        ensures links { links_of self.new ≡ links_of self.old }
        ensures fewer { deque_len self.new.running + 1 ≡ deque_len self.old.running }
        ensures room { HasRoom self.old → HasRoom self.new }
    {
        let Some(running) = self.running.pop_front() else {
            unreachable!()
        };
        let (settled, pass, desks) = running.finish(rt);
        hub.join(&mut self.pass, pass);
        service.join(&mut self.desks, desks);
        self.finished.push_reserved(settled);
    }

    /// Whether the first of those that are being served is over.
    fn is_first_over(&self) -> bool
        ensures { IsTrue result → 0 < deque_len self.now.running }
    {
        match self.running.front() {
            Some(running) => running.is_over(),
            None => false,
        }
    }

    /// Takes in those at the front that are over.
    pub(crate) fn settle_over<R: Threads>(&mut self, rt: &R, service: &S, hub: &Hub)
        requires service { self.old.service.value ≡ service.now }
        requires serving { IsServing K.shows S.may S.tables hub.now self.old }
        requires had { ServingHad S.tables S.is_pass S.enters S.runs_down S.splits S.joins hub.now self.old }
        ensures serving { IsServing K.shows S.may S.tables hub.now self.new }
        ensures had { ServingHad S.tables S.is_pass S.enters S.runs_down S.splits S.joins hub.now self.new }
        ensures keeps { Keeps self.old self.new }
        ensures links { links_of self.new ≡ links_of self.old }
        ensures room { HasRoom self.old → HasRoom self.new }
    {
        while self.is_first_over() {
            self.settle_first(rt, service, hub);
        }
    }

    /// Takes in those that are over at the front, and joins the threads of others now and then.
    pub(crate) fn tidy<R: Threads>(
        &mut self,
        rt: &R,
        alloc: Global,
        service: &S,
        hub: &Hub,
        count: u32,
    )
        requires service { self.old.service.value ≡ service.now }
        requires serving { IsServing K.shows S.may S.tables hub.now self.old }
        requires had { ServingHad S.tables S.is_pass S.enters S.runs_down S.splits S.joins hub.now self.old }
        ensures serving { IsServing K.shows S.may S.tables hub.now self.new }
        ensures had { ServingHad S.tables S.is_pass S.enters S.runs_down S.splits S.joins hub.now self.new }
        ensures keeps { Keeps self.old self.new }
        ensures links { links_of self.new ≡ links_of self.old }
    {
        self.settle_over(rt, service, hub);
        self.sweep(rt, alloc, hub, count);
    }

    /// Behind so many connections joins the threads of those that are over, wherever they stand, where it is time
    /// for that and there is memory for it.
    fn sweep<R: Threads>(&mut self, rt: &R, alloc: Global, hub: &Hub, count: u32)
        requires serving { IsServing K.shows S.may S.tables hub.now self.old }
        requires had { ServingHad S.tables S.is_pass S.enters S.runs_down S.splits S.joins hub.now self.old }
        ensures serving { IsServing K.shows S.may S.tables hub.now self.new }
        ensures had { ServingHad S.tables S.is_pass S.enters S.runs_down S.splits S.joins hub.now self.new }
        ensures keeps { Keeps self.old self.new }
        ensures links { links_of self.new ≡ links_of self.old }
        ensures len { deque_len self.new.running ≡ deque_len self.old.running }
    {
        let _ = hub;
        let each = self.running.len() / MANY + 1;
        if count % SWEEP != 0 || (count / SWEEP) as usize % each != 0 {
            return;
        }
        let Ok(swept) = VecDeque::with_capacity(alloc, self.running.len()) else {
            return;
        };
        let mut waiting = mem::replace(&mut self.running, swept);
        while let Some(running) = waiting.pop_front() {
            self.running.push_back_reserved(running.rest(rt));
        }
    }
}
