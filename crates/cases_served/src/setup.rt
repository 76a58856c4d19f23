//! How a case is played.

use crate::tied::{Running, Ties};
use cases_base::{Names, first_word, octets_of};
use cases_links::LinkPlan;
use rpc_base::{NoMemory, Octets};
use rpc_outside::LinkStep;
use std::alloc::Global;

/// A call of a link that fails: of the link of that number in its round, its take or put of that number, all from 1 on.
#[derive(Clone, Copy, Debug)]
struct Failing {
    link: u64,
    is_take: bool,
    at: u64,
}

/// One of the ways in which a case is played: where calls run, in pieces of how many octets a peer sends, and what fails.
#[derive(Clone, Copy, Debug)]
pub struct Way {
    is_brief: bool,
    size: usize,
    failing: Option<Failing>,
}

/// What the lines of a case say of how it is played.
#[derive(Drop)]
pub struct Setup {
    briefs: Vec<bool>,
    sizes: Vec<usize>,
    failing: Vec<Failing>,
    running: Running,
    most: usize,
}

/// The numbers of a range `FIRST..LAST`, or of one number.
fn range_of(text: &str) -> Option<(u64, u64)> {
    let (first, last) = text.split_once("..").unwrap_or((text, text));
    Some((first.parse::<u64>().ok()?, last.parse::<u64>().ok()?))
}

impl Setup {
    /// Where no line says anything: one put takes 8, and nothing fails.
    pub fn new(alloc: Global) -> Setup {
        Setup {
            briefs: Vec::new(alloc),
            sizes: Vec::new(alloc),
            failing: Vec::new(alloc),
            running: Running {
                is_brief: true,
                asks: 0,
                held: None,
                meets: false,
            },
            most: 8,
        }
    }

    /// What a line says. False where it says nothing of the kind.
    pub fn set(&mut self, line: &str) -> Result<bool, NoMemory> {
        let (word, rest) = first_word(line);
        match word {
            "calls" => return self.set_places(rest),
            "pieces" => return self.set_sizes(rest),
            "fails" => return self.set_failing(rest),
            "asks" => self.running.asks = rest.parse::<u32>().unwrap_or(0),
            "held" => self.running.held = rest.parse::<u16>().ok(),
            "meeting" => self.running.meets = true,
            "most" => self.most = rest.parse::<usize>().unwrap_or(1).max(1),
            _ => return Ok(false),
        }
        Ok(true)
    }

    fn set_places(&mut self, text: &str) -> Result<bool, NoMemory> {
        for word in text.split_whitespace() {
            match word {
                "here" => self.briefs.push(true)?,
                "beside" => self.briefs.push(false)?,
                _ => return Ok(false),
            }
        }
        Ok(true)
    }

    fn set_sizes(&mut self, text: &str) -> Result<bool, NoMemory> {
        for word in text.split_whitespace() {
            match word.parse::<usize>() {
                Ok(size) => self.sizes.push(size)?,
                Err(_) => return Ok(false),
            }
        }
        Ok(true)
    }

    /// `fails LINK take NUMBERS` or `fails LINK put NUMBERS`.
    fn set_failing(&mut self, text: &str) -> Result<bool, NoMemory> {
        let (link, text) = first_word(text);
        let (word, range) = first_word(text);
        let (Ok(link), Some((first, last))) = (link.parse::<u64>(), range_of(range)) else {
            return Ok(false);
        };
        let is_take = word == "take";
        for at in first..=last {
            self.failing.push(Failing { link, is_take, at })?;
        }
        Ok(is_take || word == "put")
    }

    /// All ways of the case.
    pub fn ways(&mut self, alloc: Global) -> Result<Vec<Way>, NoMemory> {
        if self.briefs.is_empty() {
            self.briefs.push(true)?;
            self.briefs.push(false)?;
        }
        if self.sizes.is_empty() {
            self.sizes.push(4_096)?;
            self.sizes.push(1)?;
        }
        let mut ways = Vec::new(alloc);
        for is_brief in &self.briefs {
            for size in &self.sizes {
                let (is_brief, size) = (*is_brief, *size);
                if self.failing.is_empty() {
                    ways.push(Way {
                        is_brief,
                        size,
                        failing: None,
                    })?;
                }
                for failing in &self.failing {
                    let failing = Some(*failing);
                    ways.push(Way {
                        is_brief,
                        size,
                        failing,
                    })?;
                }
            }
        }
        Ok(ways)
    }

    /// How calls run in a way.
    pub fn running(&self, way: Way) -> Running {
        Running {
            is_brief: way.is_brief,
            ..self.running
        }
    }

    /// The link of a line, which has that number in its round: the word for it, and what its peer does, that is octets, behind a `,`
    /// further ones in a piece of their own, and behind a `;` what comes once it was answered. None where it says nothing of
    /// the kind.
    pub fn plan(
        &self,
        alloc: Global,
        names: &Names,
        ties: &Ties,
        way: Way,
        number: u64,
        line: &str,
    ) -> Result<Option<LinkPlan>, NoMemory> {
        let (word, peer) = first_word(line);
        let Some(gates) = ties.gates(word)? else {
            return Ok(None);
        };
        let mut plan = LinkPlan::new(alloc);
        plan.gates = gates;
        plan.most = self.most;
        if let Some(failing) = way.failing
            && failing.link == number
        {
            match failing.is_take {
                true => plan.failing_takes.push(failing.at)?,
                false => plan.failing_puts.push(failing.at)?,
            }
        }
        let is_whole = put_steps(alloc, names, way.size, peer, &mut plan)?;
        Ok(if is_whole { Some(plan) } else { None })
    }
}

/// Puts what a peer does. False where the text says nothing of the kind.
fn put_steps(
    alloc: Global,
    names: &Names,
    size: usize,
    peer: &str,
    plan: &mut LinkPlan,
) -> Result<bool, NoMemory> {
    let mut is_first = true;
    for asked in peer.split(';') {
        if !is_first {
            plan.steps.push(LinkStep::AwaitPut)?;
        }
        is_first = false;
        for piece in asked.split(',') {
            let Some(sent) = octets_of(alloc, names, piece)? else {
                return Ok(false);
            };
            for part in sent.chunks(size.max(1)) {
                let mut octets = Octets::new(alloc);
                octets.append(part)?;
                plan.steps.push(LinkStep::Give(octets))?;
            }
        }
    }
    Ok(true)
}
