//! One connection of a server, step by step: what it hears on its link, what it enters in its group, and what it answers
//! (C706, "Connection-oriented RPC protocol machines", server). Each step is a function whose contract says to which state
//! it leads; the states are defined in `specs/`. Which step comes next is left to the caller.
//!
//! A connection of a server on its link (C706, "Connection-oriented RPC protocol machines", server): octets are taken,
//! and what is answered is put.
//!
//! A call that runs in a thread beside its connection's, which waits for it (C706, "Connection-oriented RPC protocol
//! machines", server). Its manager asks the group by a pass of the thread's own whether the call was cancelled, and the
//! pass enters nothing. It comes back with the call's end, and shows the Cancel that the manager was told of.
#![tactic(auto)]

mod beside;
mod calls;
mod early;
mod ending;
mod gone;
mod leaving;
mod line;
mod probing;
mod stop;
mod turns;
mod wire;
mod working;

pub use calls::accept_status;
pub use early::{hear_early, join, nak, put_close, stopped};
pub use ending::close;
pub use gone::Gone;
pub use leaving::settle;
pub use line::Line;
pub use probing::{HubProbe, Place};
pub use stop::Stop;
pub use turns::{Listening, ring_over, turn_of};
pub use wire::{Fault, Heard, Wire};
pub use working::{Promised, RunningCall, Server, Task, Worked, work};
