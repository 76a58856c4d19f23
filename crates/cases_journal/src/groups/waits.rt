//! Lists of calls that stand in four queues each, and the writes that take one out.
ghost use Rattle.std.specs.Prelude.{◌≡◌, ◌+◌, ◌<◌, ◌≤◌, IfOk, IfSome};
ghost use Rattle.wait_list.specs.Waiting.{StandsIn};

use crate::groups::answer::Answer;
use base_words::put;
use rpc_base::NoMemory;
use std::alloc::Global;
use std::marker::Brand;
use std::sync::ledger::{Blank, Ledger};
use wait_list::{Queues, Steps, Ticket, WaitList};

/// Where at most 12 writes were counted. What calls it is proved to have counted no more.
pub fn within_twelve<L: Ledger>(steps: &Steps<L>)
    requires { steps.now ≤ 12 }
{
    let _ = steps;
}

/// One more call, the last of four queues, where there is room for it.
fn come(list: &mut WaitList, call: u32)
    requires { 4 ≤ list.old.queues }
    ensures { list.new.queues ≡ list.old.queues }
{
    if list.spare() != 0 {
        list.push_back(
            call,
            Queues {
                a: Some(0),
                b: Some(1),
                c: Some(2),
                d: Some(3),
            },
        );
    }
}

/// As many calls as there is room made for, numbered from 1.
fn filled(alloc: Global, count: u32) -> Result<WaitList, NoMemory>
    ensures { IfOk result (λ list. 4 ≤ list.queues) }
{
    let mut list = WaitList::new(alloc);
    list.reserve(count as usize, 4)?;
    for before in 0..count {
        come(&mut list, before.saturating_add(1));
    }
    Ok(list)
}

/// Takes out the call after this one, with a count of its own.
fn take_next<L: Ledger>(list: &mut WaitList, after: Ticket, blank: Blank)
    requires name { blank.name ≡ L.name }
    requires parts { (blank.parts ≡ L.parts) × (0 < blank.parts) }
    requires queues { 4 ≤ list.old.queues }
    requires after { StandsIn list.old.nodes 0 after }
    ensures queues { list.new.queues ≡ list.old.queues }
    ensures after { StandsIn list.new.nodes 0 after }
{
    match list.next_of(0, Some(after)) {
        Some(next) => {
            let mut steps = Steps::<L>::new(blank);
            list.remove(next, &mut steps);
            within_twelve(&steps);
        }
        None => {}
    }
}

/// The next call of a queue.
fn next_in(list: &WaitList, queue: u32, after: Option<Ticket>) -> Option<Ticket>
    requires queue { queue < list.now.queues }
    requires after { IfSome after (λ t. StandsIn list.now.nodes queue t) }
    ensures { IfSome result (λ t. StandsIn list.now.nodes queue t) }
{
    list.next_of(queue, after)
}

/// The call of a node in a queue.
fn call_in(list: &WaitList, queue: u32, at: Ticket) -> u32
    requires { StandsIn list.now.nodes queue at }
{
    let _ = queue;
    list.call_of(at)
}

/// Takes out every second of so many calls.
fn thin(list: &mut WaitList, count: u32)
    requires { 4 ≤ list.old.queues }
    ensures { list.new.queues ≡ list.old.queues }
{
    let mut at = next_in(list, 0, None);
    for _ in 0..count {
        let Some(kept) = at else {
            return;
        };
        take_next::<Brand>(list, kept, Blank::new(1));
        at = next_in(list, 0, Some(kept));
    }
}

/// Takes out the first call, with a count of its own.
fn take_first<L: Ledger>(list: &mut WaitList, blank: Blank)
    requires name { blank.name ≡ L.name }
    requires parts { (blank.parts ≡ L.parts) × (0 < blank.parts) }
    ensures { list.new.queues ≡ list.old.queues }
{
    match list.front() {
        Some(first) => {
            let mut steps = Steps::<L>::new(blank);
            list.remove(first, &mut steps);
            within_twelve(&steps);
        }
        None => {}
    }
}

/// Puts at most so many calls of a queue, in its order.
fn put_queue(
    alloc: Global,
    list: &WaitList,
    queue: u32,
    count: u32,
    into: &mut Vec<u8>,
) -> Result<(), NoMemory>
    requires { queue < list.now.queues }
{
    put(format!(in alloc; "{queue}:")?.as_bytes(), into)?;
    let mut at = next_in(list, queue, None);
    for _ in 0..count {
        let Some(here) = at else {
            return Ok(());
        };
        let call = call_in(list, queue, here);
        put(format!(in alloc; " {call}")?.as_bytes(), into)?;
        at = next_in(list, queue, Some(here));
    }
    Ok(())
}

fn put_spare(alloc: Global, list: &WaitList, into: &mut Vec<u8>) -> Result<(), NoMemory> {
    let spare = list.spare();
    put(format!(in alloc; "{spare} ")?.as_bytes(), into)
}

/// Every second of so many calls, which stand in four queues, is taken out. What is then in one of these
/// queues.
pub fn thinned(alloc: Global, count: u32, queue: u32) -> Result<Answer, NoMemory> {
    if queue > 3 {
        return Ok(Answer::Unfit);
    }
    let mut list = filled(alloc, count)?;
    thin(&mut list, count);
    let mut line = Vec::new(alloc);
    put_queue(alloc, &list, queue, count, &mut line)?;
    Ok(Answer::Line(line))
}

/// There is room for so many calls, and they come; the first one goes, and another comes. How many more
/// have room after each of these three, and the last queue.
pub fn refilled(alloc: Global, count: u32) -> Result<Answer, NoMemory> {
    let mut list = filled(alloc, count)?;
    let mut line = Vec::new(alloc);
    put_spare(alloc, &list, &mut line)?;
    take_first::<Brand>(&mut list, Blank::new(1));
    put_spare(alloc, &list, &mut line)?;
    come(&mut list, count.saturating_add(1));
    put_spare(alloc, &list, &mut line)?;
    put_queue(alloc, &list, 3, count, &mut line)?;
    Ok(Answer::Line(line))
}
