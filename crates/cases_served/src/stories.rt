//! Connections that come to a door and are served side by side.
//!
//! Lines say how a case is played, in each combination of what the first three list: `calls PLACE..`, where calls run, `here` in their
//! connection's thread, `beside` in threads of their own, or both where no line says so; `pieces SIZE..`, in pieces of how many octets
//! peers send, 4,096 and 1 where no line says so; `fails LINK take NUMBERS` and `fails LINK put NUMBERS`, of which each
//! fails in turn; `most OCTETS`, of a put; `asks TIMES`, how often a call asks whether it was cancelled; `held OP`, whose calls
//! wait; and `meeting`, where each call waits for another.
//!
//! The other lines are steps. `link PEER` adds to the links that come next, and `COUNT x link PEER` so many. Before `;` a peer waits
//! until it is answered, and behind `,` stands a piece of its own. `late PEER` is a link whose peer ends once a call waits, which
//! then waits for the link's close. `first PEER` and `second PEER` are tied: nothing comes from the second before a call waits or the
//! first is closed, and the call waits for the close of the second. `serve`, or `serve COUNT`, serves these links, once or so
//! often. `open COUNT -> ANSWER` opens so many groups, each with a connection that stays, and `find ID -> ANSWER` has one more
//! join a group.
//!
//! What is wanted stands behind `= `: of the link of a number from 1 on `link N puts OCTETS` and `link N ends END`, of a connection by its
//! group and its number there `member G.N puts OCTETS` and so on; `all END`, with which each one's end begins; `journals LINES`,
//! `audit VERDICTS`, and `rundowns COUNT`, how many handles were run down.
ghost use Rattle.std.specs.Prelude.{IfOk};
ghost use Rattle.std.specs.Arc.{arc_value};
ghost use Rattle.group_hub.specs.Passes.{IsPassOf};
ghost use Rattle.cases_served.specs.Passes.{AreOf};

use crate::seen::{Case, Links, judged, put_audit, put_joined};
use crate::server::{Passes, Server};
use crate::setup::Setup;
use base_words::put_decimal;
use cases_base::{
    Book, CasesFault, Names, Step, Story, StoryLine, Told, first_word, put_debug, read_book,
};
use group_hub::{Hub, OpenRefusal, Pass};
use rpc_base::NoMemory;
use server_command::put_journals;
use std::alloc::Global;
use std::sync::Wait;
use std::thread::Threads;

/// So many rounds of the links that are to come.
fn rounds<R: Wait + Threads + Send + Sync + Copy + 'static>(
    rt: R,
    alloc: Global,
    case: Case<'_>,
    server: &Server,
    passes: Passes,
    links: &mut Links<'_>,
    count: u32,
) -> Result<(Passes, Step), NoMemory>
    requires { AreOf server.now passes }
    ensures { IfOk result (λ r. AreOf server.now r.0) }
{
    let mut passes = passes;
    for _ in 0..count {
        let Some(plans) = links.plans(alloc, case, &server.ties)? else {
            return Ok((passes, Step::Outside));
        };
        let (next, done) = server.round(rt, alloc, passes, plans)?;
        passes = next;
        links.done = done;
    }
    links.to_come.clear();
    Ok((passes, Step::Held))
}

/// So many groups are opened: what the hub answers at last.
fn opened<R: Wait>(
    rt: &R,
    hub: &Hub,
    pass: &mut Pass,
    count: u32,
) -> Result<(u32, u32), OpenRefusal>
    requires { IsPassOf hub.now pass.old }
    ensures { IsPassOf hub.now pass.new }
{
    for _ in 1..count {
        let _opened = hub.open_group(rt, pass);
    }
    hub.open_group(rt, pass)
}

/// Compares what the hub answers.
fn answered<R: Wait>(
    rt: &R,
    alloc: Global,
    hub: &Hub,
    pass: &mut Pass,
    asked: &str,
    wanted: &str,
    come: &mut Vec<u8>,
) -> Result<Step, NoMemory>
    requires { IsPassOf hub.now pass.old }
    ensures { IsPassOf hub.now pass.new }
{
    let (word, number) = first_word(asked);
    let number = number.parse::<u32>().unwrap_or(1).max(1);
    match word {
        "find" => {
            let found = hub.find_join(rt, pass, number);
            put_debug(alloc, &found, come)?;
            Ok(judged(come.as_slice(), wanted))
        }
        "open" => {
            let opened = opened(rt, hub, pass, number);
            put_debug(alloc, &opened, come)?;
            Ok(judged(come.as_slice(), wanted))
        }
        _ => Ok(Step::Outside),
    }
}

/// Compares what came of the server.
fn left<R: Wait>(
    rt: &R,
    alloc: Global,
    server: &Server,
    pass: &mut Pass,
    wanted: &str,
    come: &mut Vec<u8>,
) -> Result<Step, NoMemory>
    requires { IsPassOf (arc_value server.now.hub) pass.old }
    ensures { IsPassOf (arc_value server.now.hub) pass.new }
{
    let (word, wanted) = first_word(wanted);
    let mut text = Vec::new(alloc);
    put_journals(rt, alloc, &*server.hub, pass, &mut text)?;
    match word {
        "journals" => put_joined(text.as_slice(), come)?,
        "audit" => put_audit(alloc, text.as_slice(), come)?,
        "rundowns" => put_decimal(alloc, u64::from(server.service.rundowns()), come)?,
        _ => return Ok(Step::Outside),
    }
    Ok(judged(come.as_slice(), wanted))
}

/// Does what a line says, or compares what it wants.
fn asked<'a, R: Wait>(
    rt: &R,
    alloc: Global,
    names: &Names,
    server: &Server,
    pass: &mut Pass,
    links: &mut Links<'a>,
    line: &'a str,
    come: &mut Vec<u8>,
) -> Result<Step, NoMemory>
    requires { IsPassOf (arc_value server.now.hub) pass.old }
    ensures { IsPassOf (arc_value server.now.hub) pass.new }
{
    if let Some(wanted) = line.strip_prefix("= ") {
        return match first_word(wanted) {
            ("link" | "member", _) => links.see_one(alloc, names, wanted, come),
            ("all", end) => links.see_all(end, come),
            _ => left(rt, alloc, server, pass, wanted, come),
        };
    }
    match line.split_once(" -> ") {
        Some((asked, wanted)) => answered(rt, alloc, &*server.hub, pass, asked, wanted, come),
        None => links.add(line),
    }
}

/// Goes on with a step of a case.
fn stepped<'a, R: Wait + Threads + Send + Sync + Copy + 'static>(
    rt: R,
    alloc: Global,
    case: Case<'_>,
    server: &Server,
    passes: Passes,
    links: &mut Links<'a>,
    line: &'a str,
    come: &mut Vec<u8>,
) -> Result<(Passes, Step), NoMemory>
    requires { AreOf server.now passes }
    ensures { IfOk result (λ r. AreOf server.now r.0) }
{
    if let ("serve", count) = first_word(line) {
        let count = count.parse::<u32>().unwrap_or(1);
        return rounds(rt, alloc, case, server, passes, links, count);
    }
    let mut passes = passes;
    let groups = &mut passes.groups;
    let step = asked(&rt, alloc, case.names, server, groups, links, line, come)?;
    Ok((passes, step))
}

/// Plays the steps of a case in one way. Of one that differs the others aren't played: it is given, and what came is put.
fn differing<'a, R: Wait + Threads + Send + Sync + Copy + 'static>(
    rt: R,
    alloc: Global,
    case: Case<'_>,
    steps: &[&'a StoryLine],
    come: &mut Vec<u8>,
) -> Result<Option<&'a StoryLine>, CasesFault> {
    let (server, mut passes) = Server::new(alloc, case.setup.running(case.way))?;
    let mut links = Links::new(alloc);
    for line in steps {
        come.clear();
        let text = line.text.as_str();
        let (next, step) = stepped(rt, alloc, case, &server, passes, &mut links, text, come)?;
        passes = next;
        match step {
            Step::Held => {}
            Step::Outside => return Err(CasesFault::Line(line.number)),
            Step::Differs => return Ok(Some(*line)),
        }
    }
    Ok(None)
}

/// Plays a case in each of its ways, up to one in which it comes to something else.
fn play<R: Wait + Threads + Send + Sync + Copy + 'static>(
    rt: R,
    alloc: Global,
    names: &Names,
    story: &Story,
    told: &mut Told,
) -> Result<(), CasesFault> {
    let mut setup = Setup::new(alloc);
    let mut steps = Vec::new(alloc);
    for line in &story.steps {
        if !setup.set(line.text.as_str())? {
            steps.push(line)?;
        }
    }
    let mut come = Vec::new(alloc);
    for way in &setup.ways(alloc)? {
        let case = Case {
            names,
            setup: &setup,
            way: *way,
        };
        if let Some(line) = differing(rt, alloc, case, steps.as_slice(), &mut come)? {
            let (name, text) = (story.name.text.as_str(), line.text.as_str());
            told.differs(alloc, name, line.number, text, come.as_slice())?;
            return Ok(());
        }
    }
    Ok(())
}

/// What is told of connections that come to a door.
pub fn served<R: Wait + Threads + Send + Sync + Copy + 'static>(
    rt: R,
    alloc: Global,
    text: &str,
) -> Result<Told, CasesFault> {
    let Book { names, stories } = read_book(alloc, text)?;
    let mut told = Told::new(alloc);
    for story in &stories {
        told.count();
        play(rt, alloc, &names, story, &mut told)?;
    }
    Ok(told)
}
