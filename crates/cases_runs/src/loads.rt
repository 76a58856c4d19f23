//! Steps of loads beside what another program makes of them. A case is a load: `number N` is its own, and `step` its next step.
//! Behind it stand the lines of the step, in the form of a script, and answered PDUs, each behind `= `.

use base_words::{put, read_hex, read_u64};
use cases_base::{CasesFault, Names, Plays, Step, Told, first_word, played};
use replay_script::{Line, Load, MOST_STEPS, Step as LoadStep, lines, next_line};
use rpc_base::{NoMemory, Octets};
use std::alloc::Global;

/// What was made so far of a load.
#[derive(Drop)]
struct LoadPlay {
    load: Load,
    /// The present step, the lines that it makes, in order, and how many of them stood in the text.
    step: Option<LoadStep>,
    made: Vec<Line>,
    seen: usize,
    answers: Vec<Octets>,
}

impl LoadPlay {
    fn new(alloc: Global) -> LoadPlay {
        LoadPlay {
            load: Load::new(0),
            step: None,
            made: Vec::new(alloc),
            seen: 0,
            answers: Vec::new(alloc),
        }
    }

    /// The step that was begun is over. It differs where a line is missing.
    fn end_step(&mut self) -> Step {
        let Some(step) = self.step else {
            return Step::Held;
        };
        self.step = None;
        if step.slot < 8 && self.load.steps() < MOST_STEPS {
            self.load.played(step, self.answers.as_slice());
        }
        if self.seen == self.made.len() {
            Step::Held
        } else {
            Step::Differs
        }
    }

    fn begin_step(&mut self, alloc: Global) -> Result<Step, NoMemory> {
        let ended = self.end_step();
        if self.load.steps() >= MOST_STEPS {
            return Ok(Step::Outside);
        }
        let step = self.load.next();
        self.made = lines(alloc, step.deed)?;
        self.seen = 0;
        self.answers.clear();
        self.step = Some(step);
        Ok(ended)
    }

    fn begin_load(&mut self, word: &str) -> Step {
        match read_u64(word.as_bytes()) {
            Some(number) => {
                self.load = Load::new(number);
                Step::Held
            }
            None => Step::Outside,
        }
    }

    fn hear(&mut self, alloc: Global, hex: &str) -> Result<Step, NoMemory> {
        match read_hex(alloc, hex.as_bytes())? {
            Some(octets) => {
                self.answers.push(octets)?;
                Ok(Step::Held)
            }
            None => Ok(Step::Outside),
        }
    }

    /// Whether the next line that the step makes is this one. Where it isn't, what was made is put.
    fn compare(&mut self, alloc: Global, text: &str, come: &mut Vec<u8>) -> Result<Step, NoMemory> {
        let mut whole = Vec::new(alloc);
        put(text.as_bytes(), &mut whole)?;
        put(b"\n", &mut whole)?;
        let Some((wanted, [])) = next_line(alloc, whole.as_slice())? else {
            return Ok(Step::Outside);
        };
        let wanted = format!(in alloc; "{wanted:?}")?;
        let made = match self.made.get(self.seen) {
            Some(line) => format!(in alloc; "{line:?}")?,
            None => String::new(alloc),
        };
        self.seen = self.seen.saturating_add(1);
        if made == wanted {
            return Ok(Step::Held);
        }
        put(made.as_bytes(), come)?;
        Ok(Step::Differs)
    }
}

impl Plays for LoadPlay {
    fn begin(&mut self, alloc: Global, _name: &str) -> Result<(), NoMemory> {
        *self = LoadPlay::new(alloc);
        Ok(())
    }

    fn step(
        &mut self,
        alloc: Global,
        _names: &Names,
        line: &str,
        come: &mut Vec<u8>,
    ) -> Result<Step, NoMemory> {
        let (word, rest) = first_word(line);
        match word {
            "step" => self.begin_step(alloc),
            "number" => Ok(self.begin_load(rest)),
            "=" => self.hear(alloc, rest),
            _ => self.compare(alloc, line, come),
        }
    }

    fn end(
        &mut self,
        _alloc: Global,
        _names: &Names,
        _come: &mut Vec<u8>,
    ) -> Result<Step, NoMemory> {
        Ok(self.end_step())
    }
}

/// What is told of steps of loads.
pub fn loads(alloc: Global, text: &str) -> Result<Told, CasesFault> {
    let mut loads = LoadPlay::new(alloc);
    played(alloc, &mut loads, text)
}
