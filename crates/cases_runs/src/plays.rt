//! Cases of the program. The lines of a case say what it asks, and then what it wants.
//!
//! It asks: `words WORDS`; `boot HEX`; `file NAME`, or `file NAME COUNT` behind so many spaces; `again NAME`, that of
//! the case before; `with N LINE|`, the words `replay f` and the first file of the case before with another line in its Nth place; `fails OBJECT N`, of `shelf`, `door`, `dial`, `out` and `log`. A line
//! `caller` is a link of the door, and `server` one of the dial; behind it stand what its peer does, `gives OCTETS`, `awaits`
//! (that something is put) and `rests` (for one take), `most N` octets that a put takes, `fails takes N` and `fails puts N`; and
//! the flags by which peers wait for each other: `begins FLAG` and `ends FLAG`, for which it waits, and `answered FLAG` and
//! `closed FLAG`, which it sets.
//!
//! It wants: `status N`, 0 where it doesn't say; `refused TEXT`; `out` and `log`, which are empty where it doesn't say;
//! `unsaid log`, where it doesn't say what is there; `verdicts`, of an audit of the log; `back N` links; `holds I OCTETS`, what was put on the link of that number among them.
//! `fronts` wants that each front of the first file of the case before is played where its last line is whole, and else departs
//! there.
//!
//! The text of a file, of `out`, `log` and `verdicts` stands in lines `|LINE`, or `+TEXT` without a line feed. There `$(OCTETS)` stands
//! for the digits of octets, and a `\` closes a line that ends in spaces.

use crate::asked::{Asked, TextFile, copy_files, copy_named};
use crate::present::Present;
use crate::runs::{are_verdicts, come_of, each_front_departs};
use crate::texts::{put_text, with_line};
use base_words::read_u64;
use cases_base::{Book, CasesFault, Names, Story, Told, first_word, read_book};
use rpc_base::NoMemory;
use std::alloc::Global;
use std::sync::Wait;
use std::thread::Threads;

/// A case, as far as its lines were read.
#[derive(Drop)]
struct Reading {
    present: Present,
    /// Whether it takes the first file of the case before with another line.
    changed: bool,
}

/// The text of the first file.
fn script_of(files: &[TextFile]) -> &[u8] {
    match files.first() {
        Some(file) => file.text.as_slice(),
        None => b"",
    }
}

impl Reading {
    fn new(alloc: Global) -> Reading {
        Reading {
            present: Present::new(alloc),
            changed: false,
        }
    }

    /// The next line, after a case with these files. False where it is none of a case.
    fn line(
        &mut self,
        alloc: Global,
        names: &Names,
        before: &[TextFile],
        line: &str,
    ) -> Result<bool, NoMemory> {
        let (word, rest) = first_word(line);
        match word {
            "with" => self.change(alloc, names, before, rest),
            "again" => self.again(alloc, before, rest),
            _ => self.present.line(alloc, names, line),
        }
    }

    /// The script of the case before, with another line.
    fn change(
        &mut self,
        alloc: Global,
        names: &Names,
        before: &[TextFile],
        change: &str,
    ) -> Result<bool, NoMemory> {
        let Some((number, line)) = change.split_once(' ') else {
            return Ok(false);
        };
        let (Some(number), Some(line)) = (read_u64(number.as_bytes()), line.strip_suffix('|'))
        else {
            return Ok(false);
        };
        let mut new = Vec::new(alloc);
        let read = put_text(alloc, names, line, &mut new)?;
        let text = with_line(alloc, script_of(before), number, new.as_slice())?;
        self.present.asked = Asked::of_file(alloc, "replay", text.as_slice())?;
        self.changed = true;
        Ok(read)
    }

    /// The file of that name as it was in the case before.
    fn again(&mut self, alloc: Global, before: &[TextFile], name: &str) -> Result<bool, NoMemory> {
        self.present.settle(alloc)?;
        let Some(file) = copy_named(alloc, before, name)? else {
            return Ok(false);
        };
        self.present.asked.files.push(file)?;
        Ok(true)
    }

    /// Its files, where it has any of its own.
    fn own_files(&self, alloc: Global) -> Result<Option<Vec<TextFile>>, NoMemory> {
        let files = self.present.asked.files.as_slice();
        if self.changed || self.present.fronts || files.is_empty() {
            return Ok(None);
        }
        Ok(Some(copy_files(alloc, files)?))
    }
}

/// The case of a story, after a case with these files.
fn case_of(
    alloc: Global,
    names: &Names,
    before: &[TextFile],
    story: &Story,
) -> Result<Reading, CasesFault> {
    let mut reading = Reading::new(alloc);
    for step in &story.steps {
        if !reading.line(alloc, names, before, step.text.as_str())? {
            return Err(CasesFault::Line(step.number));
        }
    }
    reading.present.settle(alloc)?;
    Ok(reading)
}

/// Whether a case comes to what it wants. Where it doesn't, what came is put.
fn holds<R>(
    rt: &R,
    alloc: Global,
    present: Present,
    before: &[TextFile],
    come: &mut Vec<u8>,
) -> Result<bool, NoMemory>
where
    R: Wait + Threads + Send + Sync + Copy + 'static,
{
    if present.fronts {
        return each_front_departs(rt, alloc, script_of(before));
    }
    let Present { asked, wanted, .. } = present;
    let came = come_of(rt, alloc, asked)?;
    let log = came.log.written().as_slice();
    let verdicts = wanted.verdicts.as_slice();
    if wanted.holds(&came) && (verdicts.is_empty() || are_verdicts(rt, alloc, log, verdicts)?) {
        return Ok(true);
    }
    came.tell(alloc, come)?;
    Ok(false)
}

/// What is told of cases of the program.
pub fn runs<R>(rt: &R, alloc: Global, text: &str) -> Result<Told, CasesFault>
where
    R: Wait + Threads + Send + Sync + Copy + 'static,
{
    let Book { names, stories } = read_book(alloc, text)?;
    let mut told = Told::new(alloc);
    let mut before = Vec::new(alloc);
    for story in &stories {
        told.count();
        let reading = case_of(alloc, &names, before.as_slice(), story)?;
        if let Some(files) = reading.own_files(alloc)? {
            before = files;
        }
        let mut come = Vec::new(alloc);
        if !holds(rt, alloc, reading.present, before.as_slice(), &mut come)? {
            let name = &story.name;
            told.differs(
                alloc,
                name.text.as_str(),
                name.number,
                "the end",
                come.as_slice(),
            )?;
        }
    }
    Ok(told)
}
