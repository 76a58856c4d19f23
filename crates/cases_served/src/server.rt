//! A server over a door in memory.
ghost use Rattle.std.specs.Prelude.{IfOk};
ghost use Rattle.cases_served.specs.Passes.{AreOf};

use crate::tied::{Running, Tied, Ties};
use base_words::{put, put_decimal};
use cases_base::put_debug;
use cases_links::{LinkPlan, PlayDoor, PlayLink};
use desk_counts::Tally;
use desk_locks::{DeskService, SharedPass};
use group_hub::{Hub, Pass};
use rpc_base::{NoMemory, Numbers};
use rpc_outside::Address;
use server_counts::CountLink;
use server_rounds::{Round, Settled, serve};
use std::alloc::Global;
use std::sync::{Arc, Wait};
use std::thread::Threads;

/// With which handles begin.
const BOOT: u64 = 0x0102_0304_0506_0708;

/// What a connection came to: the group that it joined and its number there, what was put on its link, and its end as text.
#[derive(Drop)]
pub struct Done {
    pub joined: Option<(u32, u32)>,
    pub puts: Vec<u8>,
    pub ends: Vec<u8>,
}

/// A thread's passes of a server's groups and of its services.
#[derive(Drop)]
pub struct Passes {
    pub groups: Pass,
    pub desks: SharedPass,
}

/// A server of the built-in services, with its groups.
#[derive(Drop)]
pub struct Server {
    pub hub: Arc<Hub, Global>,
    pub service: Arc<Tied, Global>,
    pub ties: Ties,
    tally: Arc<Tally, Global>,
}

/// Puts how a connection ended, the group and its number there, and whether the group was retired.
fn put_end(
    alloc: Global,
    settled: &Settled<CountLink<PlayLink>>,
    into: &mut Vec<u8>,
) -> Result<(), NoMemory> {
    put_debug(alloc, &settled.ending, into)?;
    if let Some((group, number)) = settled.joined {
        put(b" of ", into)?;
        put_decimal(alloc, u64::from(group), into)?;
        put(b".", into)?;
        put_decimal(alloc, u64::from(number), into)?;
    }
    if let Some(retired) = settled.retired {
        put(b", retired ", into)?;
        put_decimal(alloc, u64::from(retired.group), into)?;
    }
    Ok(())
}

fn done_of(alloc: Global, settled: Settled<CountLink<PlayLink>>) -> Result<Done, NoMemory> {
    let mut ends = Vec::new(alloc);
    put_end(alloc, &settled, &mut ends)?;
    let Settled { link, joined, .. } = settled;
    let link = link.into_inner();
    let mut puts = Vec::new(alloc);
    put(link.written(), &mut puts)?;
    Ok(Done { joined, puts, ends })
}

impl Server {
    /// A new one, whose calls run so, and its first passes.
    pub fn new(alloc: Global, running: Running) -> Result<(Server, Passes), NoMemory>
        ensures { IfOk result (λ made. AreOf made.0 made.1) }
    {
        let at = Address {
            ip: [127, 0, 0, 1],
            port: 5000,
        };
        let ties = Ties::new(alloc)?;
        let tally = Arc::new(alloc, Tally::new())?;
        let (service, desks) = DeskService::new(alloc, at, None, tally.clone()?)?;
        let service = Arc::new(alloc, Tied::new(service, running, ties.copy()?))?;
        let (hub, groups) = Hub::new(alloc, BOOT)?;
        let hub = Arc::new(alloc, hub)?;
        let server = Server {
            hub,
            service,
            ties,
            tally,
        };
        Ok((server, Passes { groups, desks }))
    }

    /// Serves a link of each plan, all side by side: what they come to, in their order.
    pub fn round<R: Wait + Threads + Send + Sync + Copy + 'static>(
        &self,
        rt: R,
        alloc: Global,
        passes: Passes,
        plans: Vec<LinkPlan>,
    ) -> Result<(Passes, Vec<Done>), NoMemory>
        requires { AreOf self.now passes }
        ensures { IfOk result (λ round. AreOf self.now round.0) }
    {
        let most = u32::try_from(plans.len()).unwrap_or(u32::MAX);
        let mut door = PlayDoor::new(alloc, plans, Numbers::new(alloc));
        let (service, hub) = (&self.service, &self.hub);
        let Passes { groups, desks } = passes;
        let tally = &self.tally;
        let (round, desks) = serve(
            rt, alloc, service, hub, groups, desks, &mut door, most, tally,
        );
        let Round {
            pass: groups,
            finished,
            ..
        } = round;
        let mut done = Vec::new(alloc);
        for settled in finished {
            done.push(done_of(alloc, settled)?)?;
        }
        Ok((Passes { groups, desks }, done))
    }
}
