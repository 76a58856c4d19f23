//! Connections of a server from end to end: streams of octets, and the acts and answers that they come to.

mod acts;
mod answers;
mod cuts;
mod lines;
mod player;
mod several;

use cases_base::{CasesFault, Told, played};
use player::Conns;
use several::Several;
use std::alloc::Global;

/// What is told of stories of connections.
pub fn conns(alloc: Global, text: &str) -> Result<Told, CasesFault> {
    let mut conns = Conns::new(alloc)?;
    played(alloc, &mut conns, text)
}

/// What is told of stories of connections on which several calls are unanswered at once.
pub fn multiplexed(alloc: Global, text: &str) -> Result<Told, CasesFault> {
    let mut several = Several::new(alloc)?;
    played(alloc, &mut several, text)
}
