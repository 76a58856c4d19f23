//! Stories of call scripts over links in memory.

ghost use Rattle.std.specs.Prelude.{◌≡◌, true};
ghost use Rattle.rpc_outside.specs.LinkLists.{is_new};

use base_words::{put, put_decimal, put_hex, read_u16};
use cases_base::{CasesFault, Names, Plays, Step, Told, first_word, octets_of, played};
use client_script::{CallEnd, call};
use ndr_lines::table_of;
use ndr_table::Table;
use rpc_base::{Items, NoMemory, Numbers, Octets};
use rpc_outside::{Address, LinkStep, LinkSteps, Links, ScriptDial, ScriptLink};
use std::alloc::Global;

/// What is told of stories of call scripts, over the probe's interface. A line `link` has the steps of the next link that is
/// dialled, of two, with `;` between them: `give OCTETS`, `each OCTETS` with each octet alone, `quiet COUNT` for that many quiet
/// turns, `await` for octets that are put, and `end`. `line` has the script's next line, `out` the next that is put out, `end` how the script ends, and `put` the
/// octets that are put on the next link that is given back.
pub fn calls(alloc: Global, text: &str) -> Result<Told, CasesFault> {
    let Some(table) = table_of(alloc, PROBE.as_bytes()) else {
        return Err(CasesFault::Memory);
    };
    let mut story = Story {
        table,
        told: Script::new(alloc),
    };
    played(alloc, &mut story, text)
}

const PROBE: &str =
    "[uuid(5f0c7a12-3b4d-4e6f-8a90-b1c2d3e4f506), version(1.0), pointer_default(unique)]
interface probe {
    typedef [context_handle] void *probe_h;
    error_status_t probe_open([in] handle_t b, [in] unsigned long n, [out] probe_h *h);
    error_status_t probe_close([in, out] probe_h *h);
}";

/// A script, and what is wanted of it.
#[derive(Drop)]
struct Script {
    links: Vec<String>,
    lines: Vec<u8>,
    out: Vec<u8>,
    end: String,
    put: Vec<Vec<u8>>,
}

impl Script {
    fn new(alloc: Global) -> Script {
        Script {
            links: Vec::new(alloc),
            lines: Vec::new(alloc),
            out: Vec::new(alloc),
            end: String::new(alloc),
            put: Vec::new(alloc),
        }
    }
}

/// The interface, and the present script.
#[derive(Drop)]
struct Story {
    table: Table,
    told: Script,
}

/// The steps of a link. None where they are nothing of the kind.
fn steps_of(alloc: Global, names: &Names, text: &str) -> Result<Option<LinkSteps>, NoMemory> {
    let mut steps = Items::new(alloc);
    for part in text.split(';') {
        let (word, words) = first_word(part);
        let Some(octets) = octets_of(alloc, names, words)? else {
            return Ok(None);
        };
        match word {
            "" => {}
            "quiet" => {
                let Some(count) = read_u16(words.as_bytes()) else {
                    return Ok(None);
                };
                for _ in 0..count {
                    steps.push(LinkStep::Quiet)?;
                }
            }
            "await" => steps.push(LinkStep::AwaitPut)?,
            "end" => steps.push(LinkStep::End)?,
            "give" => steps.push(LinkStep::Give(Octets::from_vec(octets)))?,
            "each" => {
                for octet in &octets {
                    let one = Vec::from_slice(alloc, &[*octet])?;
                    steps.push(LinkStep::Give(Octets::from_vec(one)))?;
                }
            }
            _ => return Ok(None),
        }
    }
    Ok(Some(steps))
}

fn link_of(alloc: Global, steps: LinkSteps) -> ScriptLink
    ensures { is_new result ≡ true }
{
    ScriptLink::new(alloc, steps, 48, Items::new(alloc), Items::new(alloc))
}

fn dial_of(alloc: Global, one: LinkSteps, other: LinkSteps) -> Result<ScriptDial, NoMemory> {
    let mut links = Links::new(alloc);
    links.push(link_of(alloc, one))?;
    links.push(link_of(alloc, other))?;
    Ok(ScriptDial::new(alloc, links, Numbers::new(alloc)))
}

fn put_end(alloc: Global, end: CallEnd, into: &mut Vec<u8>) -> Result<(), NoMemory> {
    match end {
        CallEnd::Done => put(b"done", into),
        CallEnd::Failed => put(b"failed", into),
        CallEnd::Lost => put(b"lost", into),
        CallEnd::Line(number) => {
            put(b"line ", into)?;
            put_decimal(alloc, number as u64, into)
        }
        CallEnd::DialFault => put(b"dial", into),
        CallEnd::Memory => Err(NoMemory),
    }
}

impl Script {
    // The steps of the link at that place; one that isn't told ends at once.
    fn link(&self, at: usize) -> &str {
        match self.links.get(at) {
            Some(link) => link.as_str(),
            None => "end",
        }
    }

    // The dial with the links of the script.
    fn dial(&self, alloc: Global, names: &Names) -> Result<Option<ScriptDial>, NoMemory> {
        let Some(one) = steps_of(alloc, names, self.link(0))? else {
            return Ok(None);
        };
        let Some(other) = steps_of(alloc, names, self.link(1))? else {
            return Ok(None);
        };
        Ok(Some(dial_of(alloc, one, other)?))
    }

    // Whether these octets are wanted on the link that was given back at that place.
    fn wants_put(&self, at: usize, written: &[u8]) -> bool {
        match self.put.get(at) {
            Some(wanted) => wanted.as_slice() == written,
            None => false,
        }
    }

    // Puts what each link took that was given back, in hexadecimal, each behind a line feed.
    fn put_links(
        &self,
        alloc: Global,
        dial: &ScriptDial,
        into: &mut Vec<u8>,
    ) -> Result<bool, NoMemory> {
        let links = dial.given_back();
        let mut is_right = links.len() == self.put.len();
        for at in 0..links.len() {
            if let Some(link) = links.get(at) {
                let written = link.written().as_slice();
                put(b"\nput ", into)?;
                put_hex(alloc, written, into)?;
                is_right = is_right && self.wants_put(at, written);
            }
        }
        Ok(is_right)
    }
}

impl Plays for Story {
    fn begin(&mut self, alloc: Global, _name: &str) -> Result<(), NoMemory> {
        self.told = Script::new(alloc);
        Ok(())
    }

    fn step(
        &mut self,
        alloc: Global,
        names: &Names,
        line: &str,
        _come: &mut Vec<u8>,
    ) -> Result<Step, NoMemory> {
        let (word, rest) = first_word(line);
        match word {
            "link" => self.told.links.push(String::from_str(alloc, rest)?)?,
            "line" => {
                put(rest.as_bytes(), &mut self.told.lines)?;
                put(b"\n", &mut self.told.lines)?;
            }
            "out" => {
                put(rest.as_bytes(), &mut self.told.out)?;
                put(b"\n", &mut self.told.out)?;
            }
            "end" => self.told.end = String::from_str(alloc, rest)?,
            "put" => match octets_of(alloc, names, rest)? {
                Some(octets) => self.told.put.push(octets)?,
                None => return Ok(Step::Outside),
            },
            _ => return Ok(Step::Outside),
        }
        Ok(Step::Held)
    }

    fn end(&mut self, alloc: Global, names: &Names, come: &mut Vec<u8>) -> Result<Step, NoMemory> {
        let Some(mut dial) = self.told.dial(alloc, names)? else {
            return Ok(Step::Outside);
        };
        let at = Address {
            ip: [127, 0, 0, 1],
            port: 5000,
        };
        let called = call(alloc, &self.table, &self.told.lines, at, &mut dial);
        let mut end = Vec::new(alloc);
        put_end(alloc, called.end, &mut end)?;
        put(called.out.as_slice(), come)?;
        put(&end, come)?;
        let is_put = self.told.put_links(alloc, &dial, come)?;
        if is_put
            && called.out.as_slice() == self.told.out.as_slice()
            && end.as_slice() == self.told.end.as_bytes()
        {
            return Ok(Step::Held);
        }
        Ok(Step::Differs)
    }
}
