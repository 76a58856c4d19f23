//! Threads that meet at the groups of a hub: a turn that one keeps while another calls at the next shard or at the same, and
//! two that look for one group; and what a third thread is told of a group that has ended, before it is retired and after.
#![tactic(auto)]

#[cfg(test)]
mod beside;
#[cfg(test)]
mod hold;
#[cfg(test)]
mod lives;
#[cfg(test)]
mod looks;
