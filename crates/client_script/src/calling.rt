//! A call script is played over the links of a dial.
ghost use Rattle.std.specs.Prelude.{◌≡◌, ◌++◌, map};
ghost use Rattle.ndr_table.specs.Shown.{shown};
ghost use Rattle.client_script.specs.Scripts.{Ends};
ghost use Rattle.client_script.specs.Plays.{HasOuts, Returns, link_of};

use crate::channel::Channel;
use crate::player::Player;
use crate::reading::play_all;
use ndr_table::Table;
use rpc_base::Octets;
use rpc_outside::{Address, Dial};
use std::alloc::Global;

/// How a call script ended.
#[derive(Clone, Copy, Debug, PartialEq, Eq)]
pub enum CallEnd {
    /// All lines are played.
    Done,
    /// All lines are played, and a bind was refused or something failed.
    Failed,
    /// A connection was lost: its link failed or ended, it was quiet for too long, or its peer broke the protocol.
    Lost,
    /// The line of that number, from 1, is none of a call script, or may not come there. The lines before it are played.
    Line(usize),
    /// The dial failed.
    DialFault,
    /// Memory ran out.
    Memory,
}

/// What a call script came to.
#[derive(Drop)]
pub struct Called {
    /// The lines of the outcomes.
    pub out: Octets,
    pub end: CallEnd,
}

/// Gives the links of all connections back, in their order.
fn give_back<Q: Dial>(dial: &mut Q, channels: Vec<Channel<Q::Link>>)
    requires { HasOuts channels.items (Q.shows dial.old) }
    ensures { Returns (Q.shows dial.old) (map link_of channels.items) (Q.shows dial.new) }
{
    let mut left = channels.into_iter();
    while let Some(channel) = left.next() {
        dial.back(channel.into_link());
    }
}

/// Plays a call script for the interface of the table: each `bind` opens a link of the dial to the address, and all links are
/// given back at the end, in that order (C706, chapters "Remote Procedure Call Model" and "Connection-oriented RPC Protocol
/// Machines", client).
pub fn call<Q: Dial>(alloc: Global, table: &Table, text: &[u8], at: Address, dial: &mut Q) -> Called
    ensures { Ends Q.Link.shows (shown table.now) text.now at (Q.shows dial.old) result.out result.end (Q.shows dial.new) }
{
    let mut player = Player::new(alloc);
    let end = play_all(&mut player, table, dial, at, text);
    let Player { channels, out, .. } = player;
    give_back(dial, channels);
    Called {
        out: Octets::from_vec(out),
        end,
    }
}
