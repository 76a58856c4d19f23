//! A connection that is being served.
ghost use Rattle.std.specs.Prelude.{◌≡◌, ◌<◌, ◌^◌};
ghost use Rattle.std.specs.Arc.{arc_value};
ghost use Rattle.rpc_outside.specs.Links.{IsNew};
ghost use Rattle.group_hub.specs.Passes.{IsPassOf};
ghost use Rattle.server_ends.specs.Finishes.{Finishes};
ghost use Rattle.server_rounds.specs.Served.{AreNumbers, IsServed, finished_of};
ghost use Rattle.server_rounds.specs.Running.{Keeps, WillKeep};
ghost use Rattle.server_rounds.specs.Desks.{KeepsHad, WillKeepHad};
ghost use Rattle.server_run.specs.Deeds.{IsHad};

use crate::settled::Settled;
use group_hub::{Hub, Pass};
use rpc_outside::Link;
use server_calls::Service;
use server_ends::Finished;
use server_run::{serve_connection, turn_away};
use std::alloc::Global;
use std::snapshot::Snapshot;
use std::sync::atomic::{AtomicBool, Ordering};
use std::sync::{Arc, Wait};
use std::thread::{Builder, Promise, PromisedHandle, Threads};

/// The stack of a connection's thread, in octets: the deepest stub takes some 2.8 MiB to decode.
const STACK: usize = 4 << 20;

/// That the connection of a link is served at a hub, with that pass.
#[derive(Drop)]
pub(crate) struct Promised<S: Service, K> {
    pub(crate) service: Snapshot<S>,
    pub(crate) hub: Snapshot<Hub>,
    pub(crate) began: Snapshot<Pass>,
    pub(crate) desks: Snapshot<S::Pass>,
    pub(crate) came: Snapshot<K>,
}

/// A connection that is over, and the manager's pass that it gave back.
#[derive(Drop)]
pub(crate) struct Ended<K, P> {
    pub(crate) finished: Finished<K>,
    pub(crate) desks: P,
}

impl<S: Service, K> Promised<S, K> {
    fn of(service: &S, hub: &Hub, began: &Pass, desks: &S::Pass, came: &K) -> Promised<S, K>
        ensures service { result.service.value ≡ service.now }
        ensures hub { result.hub.value ≡ hub.now }
        ensures began { result.began.value ≡ began.now }
        ensures desks { result.desks.value ≡ desks.now }
        ensures came { result.came.value ≡ came.now }
    {
        Promised {
            service: Snapshot::of(service),
            hub: Snapshot::of(hub),
            began: Snapshot::of(began),
            desks: Snapshot::of(desks),
            came: Snapshot::of(came),
        }
    }
}

impl<S: Service, K: Link> Promise<Ended<K, S::Pass>> for Promised<S, K> {
    ghost use Rattle.server_rounds.specs.Running.{Keeps};
    ghost use Rattle.server_rounds.specs.Desks.{KeepsHad};

    ghost kept_by = { λ p e. Keeps K.shows S.may S.tables p e.finished × KeepsHad S.tables S.is_pass S.enters S.runs_down S.splits S.joins p e };
}

/// Where a connection is served.
#[derive(Drop)]
pub(crate) enum Place<S: Service, K: Link> {
    /// In a thread of its own.
    There(PromisedHandle<Ended<K, S::Pass>, Promised<S, K>>),
    /// It is over, and its thread, if it had one, was joined.
    Here(Ended<K, S::Pass>),
}

/// A connection that is being served, or was.
#[derive(Drop)]
pub(crate) struct Running<S: Service, K: Link> {
    pub(crate) place: Place<S, K>,
    pub(crate) promise: Promised<S, K>,
    // That the connection is over. No clause speaks of it.
    over: Arc<AtomicBool, Global>,
}

/// Serves a connection to its end, whose link is new, or closes it at once for want of memory.
fn serve_one<R: Wait + Threads + Sync, S: Service + Sync, K: Link>(
    rt: &R,
    service: &S,
    hub: &Hub,
    is_turned_away: bool,
    pass: Pass,
    desks: S::Pass,
    link: K,
) -> Ended<K, S::Pass>
    requires pass { IsPassOf hub.now pass }
    requires new { IsNew (K.shows link) }
    requires desks { S.is_pass service.now desks }
    ensures pass { IsPassOf hub.now result.finished.pass }
    ensures finishes { Finishes K.shows (S.may service.now) (S.tables service.now) hub.now.boot pass (K.shows link) result.finished }
    ensures desks { S.is_pass service.now result.desks }
    ensures had { IsHad S.tables S.enters S.runs_down S.splits S.joins service.now hub.now.boot pass desks result.finished result.desks }
{
    if is_turned_away {
        let finished = turn_away(service, hub, pass, link);
        return Ended { finished, desks };
    }
    let table = service.served();
    let alloc = service.alloc();
    let (finished, desks) = serve_connection(rt, alloc, hub, pass, desks, link, table, service);
    Ended { finished, desks }
}

/// Serves a connection in a thread of its own, unless it is said to be over already, as where no thread could be started.
fn serve_there<R: Wait + Threads + Sync + Copy, S: Service + Sync + Drop, K: Link>(
    rt: R,
    service: Arc<S, Global>,
    hub: Arc<Hub, Global>,
    over: Arc<AtomicBool, Global>,
    pass: Pass,
    desks: S::Pass,
    link: K,
) -> Ended<K, S::Pass>
    requires pass { IsPassOf (arc_value hub) pass }
    requires new { IsNew (K.shows link) }
    requires desks { S.is_pass (arc_value service) desks }
    ensures served { IsServed K.shows (S.may (arc_value service)) (S.tables (arc_value service)) (arc_value hub) pass link result.finished }
    ensures desks { S.is_pass (arc_value service) result.desks }
    ensures had { IsHad S.tables S.enters S.runs_down S.splits S.joins (arc_value service) (arc_value hub).boot pass desks result.finished result.desks }
{
    let is_turned_away = over.load(Ordering::SeqCst);
    let ended = serve_one(&rt, &*service, &*hub, is_turned_away, pass, desks, link);
    over.store(true, Ordering::SeqCst);
    ended
}

impl<S: Service, K: Link> Running<S, K> {
    /// Serves a connection in a thread of its own. Where none can be started it is turned away, which another one can be served
    /// beside.
    pub(crate) fn start<R: Wait + Threads + Send + Sync + Copy + 'static>(
        rt: R,
        service: &Arc<S, Global>,
        hub: &Arc<Hub, Global>,
        over: Arc<AtomicBool, Global>,
        pass: Pass,
        desks: S::Pass,
        link: K,
    ) -> Running<S, K>
    where
        S: Send + Sync + Drop + 'static,
        S::Pass: 'static,
        K: 'static,
        requires pass { IsPassOf (arc_value hub.now) pass }
        requires new { IsNew (K.shows link) }
        requires desks { S.is_pass (arc_value service.now) desks }
        ensures service { result.promise.service.value ≡ arc_value service.now }
        ensures hub { result.promise.hub.value ≡ arc_value hub.now }
        ensures began { result.promise.began.value ≡ pass }
        ensures desks { result.promise.desks.value ≡ desks }
        ensures came { result.promise.came.value ≡ link }
        ensures kept { WillKeep K.shows S.may S.tables result.place result.promise }
        ensures had { WillKeepHad S.tables S.is_pass S.enters S.runs_down S.splits S.joins result.place result.promise }
    {
        let promise = Promised::of(&**service, &**hub, &pass, &desks, &link);
        let (Ok(mine), Ok(theirs), Ok(flag)) = (
            Arc::try_clone(service),
            Arc::try_clone(hub),
            Arc::try_clone(&over),
        ) else {
            let ended = serve_one(&rt, &**service, &**hub, true, pass, desks, link);
            let place = Place::Here(ended);
            return Running {
                place,
                promise,
                over,
            };
        };
        let again = Promised::of(&**service, &**hub, &pass, &desks, &link);
        let place = match Builder::new().stack_size(STACK).spawn_with(
            &rt,
            again,
            move || -> Ended<K, S::Pass>
                requires pass { IsPassOf (arc_value theirs) pass }
                requires new { IsNew (K.shows link) }
                requires desks { S.is_pass (arc_value mine) desks }
                ensures served { IsServed K.shows (S.may (arc_value mine)) (S.tables (arc_value mine)) (arc_value theirs) pass link result.finished }
                ensures desks { S.is_pass (arc_value mine) result.desks }
                ensures had { IsHad S.tables S.enters S.runs_down S.splits S.joins (arc_value mine) (arc_value theirs).boot pass desks result.finished result.desks }
            { serve_there(rt, mine, theirs, flag, pass, desks, link) },
        ) {
            Ok(child) => Place::There(child),
            Err(refused) => {
                over.store(true, Ordering::SeqCst);
                Place::Here((refused.value)())
            }
        };
        Running {
            place,
            promise,
            over,
        }
    }

    /// Whether the connection is over.
    pub(crate) fn is_over(&self) -> bool {
        self.over.load(Ordering::SeqCst)
    }

    /// Joins its thread, where the connection is over.
    pub(crate) fn rest<R: Threads>(self, rt: &R) -> Running<S, K>
        requires kept { WillKeep K.shows S.may S.tables self.place self.promise }
        requires had { WillKeepHad S.tables S.is_pass S.enters S.runs_down S.splits S.joins self.place self.promise }
        ensures promise { result.promise ≡ self.promise }
        ensures kept { WillKeep K.shows S.may S.tables result.place result.promise }
        ensures had { WillKeepHad S.tables S.is_pass S.enters S.runs_down S.splits S.joins result.place result.promise }
    {
        let Running {
            place,
            promise,
            over,
        } = self;
        let place = if over.load(Ordering::SeqCst) {
            match place {
                Place::There(child) => Place::Here(child.join(rt)),
                here => here,
            }
        } else {
            place
        };
        Running {
            place,
            promise,
            over,
        }
    }

    /// Waits until the connection is over, and gives back its passes.
    pub(crate) fn finish<R: Threads>(self, rt: &R) -> (Settled<K>, Pass, S::Pass)
        requires kept { WillKeep K.shows S.may S.tables self.place self.promise }
        requires had { WillKeepHad S.tables S.is_pass S.enters S.runs_down S.splits S.joins self.place self.promise }
        ensures came { result.0.came.value ≡ self.promise.came.value }
        ensures began { result.0.began.value ≡ self.promise.began.value }
        ensures pass { result.1 ≡ result.0.pass.value }
        ensures served { Keeps K.shows S.may S.tables self.promise (finished_of result.0) }
        ensures numbers { AreNumbers result.0.joined }
        ensures had { KeepsHad S.tables S.is_pass S.enters S.runs_down S.splits S.joins self.promise (record { finished = finished_of result.0; desks = result.2 }) }
    {
        let Running { place, promise, .. } = self;
        let Ended { finished, desks } = match place {
            Place::There(child) => child.join(rt),
            Place::Here(ended) => ended,
        };
        let Promised { began, came, .. } = promise;
        let (settled, pass) = settled(finished, came, began);
        (settled, pass, desks)
    }
}

/// What their type says of two numbers.
fn note_pair(group: u32, number: u32)
    ensures { (group < 2 ^ 32) × (number < 2 ^ 32) }
{
    let _ = (group, number);
}

/// The id of a group and the number of a connection have 32 bits.
fn note_numbers(joined: Option<(u32, u32)>)
    ensures { AreNumbers joined }
{
    match joined {
        None => {}
        Some((group, number)) => note_pair(group, number),
    }
}

/// What is left of a connection beside its pass.
fn settled<K>(finished: Finished<K>, came: Snapshot<K>, began: Snapshot<Pass>) -> (Settled<K>, Pass)
    ensures came { result.0.came.value ≡ came.value }
    ensures began { result.0.began.value ≡ began.value }
    ensures pass { result.1 ≡ result.0.pass.value }
    ensures same { finished_of result.0 ≡ finished }
    ensures numbers { AreNumbers result.0.joined }
{
    let Finished {
        link,
        pass,
        joined,
        ending,
        retired,
    } = finished;
    note_numbers(joined);
    let settled = Settled {
        link,
        joined,
        ending,
        retired,
        came,
        began,
        pass: Snapshot::of(&pass),
    };
    (settled, pass)
}
