//! A round of connections.
ghost use Rattle.std.specs.Prelude.{◌≡◌, [], length};
ghost use Rattle.std.specs.List.{AllByRecursion};
ghost use Rattle.std.specs.Arc.{arc_value};
ghost use Rattle.group_hub.specs.Passes.{IsPassOf};
ghost use Rattle.server_rounds.specs.Passes.{TakesIn};
ghost use Rattle.server_rounds.specs.Served.{IsSettled};
ghost use Rattle.server_rounds.specs.Rounds.{IsRound, Stops, HandsOutAll, came, passes};
ghost use Rattle.server_rounds.specs.Serving.{IsServing, Keeps, links_of, Goes};
ghost use Rattle.server_rounds.specs.Desks.{ServingHad, RoundHad};

use crate::serving::Serving;
use crate::settled::Settled;
use desk_counts::Tally;
use group_hub::{Hub, Pass};
use rpc_base::OutFault;
use rpc_outside::{Door, Link};
use server_calls::Service;
use server_counts::CountLink;
use std::alloc::Global;
use std::sync::{Arc, Wait};
use std::thread::Threads;

/// Why no further connection was taken from the door.
#[derive(Clone, Copy, Debug, PartialEq, Eq)]
pub enum Stop {
    /// As many were served as were to be.
    Done,
    /// The door closed.
    DoorClosed,
    /// The door failed.
    DoorFault,
    /// Memory ran out.
    Memory,
}

/// What a round came to.
#[derive(Drop)]
pub struct Round<K> {
    /// The pass with which it began, which has taken in those of its connections.
    pub pass: Pass,
    /// The connections, in the order of the door.
    pub finished: Vec<Settled<K>>,
    pub stop: Stop,
}

impl<S: Service, K: Link> Serving<S, CountLink<K>> {
    /// Serves the next connection that comes to the door, or says why there is none.
    #[tactic(auto, using(crate::proofs::Desks::had_same))]
    fn accept_next<R: Wait + Threads + Send + Sync + Copy + 'static, D: Door<Link = K>>(
        &mut self,
        rt: R,
        alloc: Global,
        service: &Arc<S, Global>,
        hub: &Arc<Hub, Global>,
        door: &mut D,
        tally: &Arc<Tally, Global>,
    ) -> Option<Stop>
    where
        S: Send + Sync + Drop + 'static,
        S::Pass: 'static,
        K: 'static,
        requires serving { IsServing K.shows S.may S.tables (arc_value hub.now) self.old }
        requires had { ServingHad S.tables S.is_pass S.enters S.runs_down S.splits S.joins (arc_value hub.now) self.old }
        requires service { self.old.service.value ≡ arc_value service.now }
        ensures serving { IsServing K.shows S.may S.tables (arc_value hub.now) self.new }
        ensures had { ServingHad S.tables S.is_pass S.enters S.runs_down S.splits S.joins (arc_value hub.now) self.new }
        ensures keeps { Keeps self.old self.new }
        ensures goes { Goes (D.shows door.old) (links_of self.old) result (D.shows door.new) (links_of self.new) }
    {
        let (Ok(over), Ok(sums)) = (
            self.await_room(&rt, alloc, &**service, &**hub),
            Arc::try_clone(tally),
        ) else {
            return Some(Stop::Memory);
        };
        match door.next() {
            Ok(Some(link)) => {
                // Those that were over before it came give their stacks back first.
                self.settle_over(&rt, &**service, &**hub);
                self.start(rt, service, hub, over, CountLink::new(link, sums));
                None
            }
            Ok(None) => Some(Stop::DoorClosed),
            Err(OutFault::Failed) => Some(Stop::DoorFault),
            Err(OutFault::Memory) => Some(Stop::Memory),
        }
    }

    /// Serves up to so many connections that come to the door, which is shut behind the last.
    #[tactic(auto, using(crate::proofs::Doors::hands_start, crate::proofs::Doors::goes_on, crate::proofs::Doors::goes_out, crate::proofs::Doors::hands_same))]
    fn accept_all<R: Wait + Threads + Send + Sync + Copy + 'static, D: Door<Link = K>>(
        &mut self,
        rt: R,
        alloc: Global,
        service: &Arc<S, Global>,
        hub: &Arc<Hub, Global>,
        door: &mut D,
        most: u32,
        tally: &Arc<Tally, Global>,
    ) -> Stop
    where
        S: Send + Sync + Drop + 'static,
        S::Pass: 'static,
        K: 'static,
        requires serving { IsServing K.shows S.may S.tables (arc_value hub.now) self.old }
        requires had { ServingHad S.tables S.is_pass S.enters S.runs_down S.splits S.joins (arc_value hub.now) self.old }
        requires service { self.old.service.value ≡ arc_value service.now }
        requires none { links_of self.old ≡ [] }
        ensures serving { IsServing K.shows S.may S.tables (arc_value hub.now) self.new }
        ensures had { ServingHad S.tables S.is_pass S.enters S.runs_down S.splits S.joins (arc_value hub.now) self.new }
        ensures keeps { Keeps self.old self.new }
        ensures door { HandsOutAll (D.shows door.old) (D.shows door.new) (links_of self.new) }
        ensures stop { Stops (D.shows door.old) (D.shows door.new) most (length (links_of self.new)) result }
    {
        for count in 0..most {
            self.tidy(&rt, alloc, &**service, &**hub, count);
            match self.accept_next(rt, alloc, service, hub, door, tally) {
                Some(stop) => return stop,
                None => {}
            }
        }
        door.shut();
        Stop::Done
    }
}

impl<S: Service, K: Link> Serving<S, K> {
    /// Waits until all of them are over.
    #[tactic(auto, using(crate::proofs::Servings::settled_all, crate::proofs::Servings::takes_all))]
    fn settle_all<R: Threads>(
        mut self,
        rt: &R,
        service: &S,
        hub: &Hub,
        stop: Stop,
    ) -> (Round<K>, S::Pass)
        requires service { self.service.value ≡ service.now }
        requires serving { IsServing K.shows S.may S.tables hub.now self }
        requires had { ServingHad S.tables S.is_pass S.enters S.runs_down S.splits S.joins hub.now self }
        ensures pass { IsPassOf hub.now result.0.pass }
        ensures desks { S.is_pass service.now result.1 }
        ensures had { RoundHad S.tables S.enters S.runs_down S.splits S.joins service.now hub.now.boot self.first_desks.value result.0.finished.items result.1 }
        ensures settled { AllByRecursion (IsSettled K.shows (S.may self.service.value) (S.tables self.service.value) hub.now self.first.value) result.0.finished.items }
        ensures takes { TakesIn self.first.value (passes result.0.finished.items) result.0.pass }
        ensures links { came result.0.finished.items ≡ links_of self }
        ensures stop { result.0.stop ≡ stop }
    {
        while !self.running.is_empty() {
            self.settle_first(rt, service, hub);
        }
        let Serving {
            pass,
            desks,
            finished,
            ..
        } = self;
        let round = Round {
            pass,
            finished,
            stop,
        };
        (round, desks)
    }
}

/// Serves up to so many connections that come to the door, each in a thread of its own, and waits until all of them are
/// over. Behind the last the door is shut. One for which no thread can be started is closed for want of memory. Each link counts
/// the packets on it, and adds them to the tally too. The pass is of the hub.
pub fn serve<R, S, D>(
    rt: R,
    alloc: Global,
    service: &Arc<S, Global>,
    hub: &Arc<Hub, Global>,
    pass: Pass,
    desks: S::Pass,
    door: &mut D,
    most: u32,
    tally: &Arc<Tally, Global>,
) -> (Round<CountLink<D::Link>>, S::Pass)
where
    R: Wait + Threads + Send + Sync + Copy + 'static,
    S: Service + Send + Sync + Drop + 'static,
    S::Pass: 'static,
    D: Door,
    D::Link: 'static,
    requires pass { IsPassOf (arc_value hub.now) pass }
    requires desks { S.is_pass (arc_value service.now) desks }
    ensures pass { IsPassOf (arc_value hub.now) result.0.pass }
    ensures round { IsRound D.Link.shows (S.may (arc_value service.now)) (S.tables (arc_value service.now)) (arc_value hub.now) pass (D.shows door.old) most result.0 (D.shows door.new) }
    ensures desks { S.is_pass (arc_value service.now) result.1 }
    // Each connection had its calls answered and its handles run down in a chain of passes of the service, which the last has taken in.
    ensures had { RoundHad S.tables S.enters S.runs_down S.splits S.joins (arc_value service.now) (arc_value hub.now).boot desks result.0.finished.items result.1 }
{
    let mut serving = Serving::new(alloc, &**service, &**hub, pass, desks);
    let stop = serving.accept_all(rt, alloc, service, hub, door, most, tally);
    serving.settle_all(&rt, &**service, &**hub, stop)
}
