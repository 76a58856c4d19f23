//! Cases that are stories: steps, one after another.

use crate::fault::CasesFault;
use crate::names::Names;
use crate::told::Told;
use crate::walk::Walk;
use rpc_base::NoMemory;
use std::alloc::Global;

/// What became of a step.
#[derive(Clone, Copy, Debug, PartialEq, Eq)]
pub enum Step {
    /// What its line wants came.
    Held,
    /// Something else came.
    Differs,
    /// The line is no step.
    Outside,
}

/// What plays stories.
pub trait Plays {
    /// A case of that name begins.
    fn begin(&mut self, alloc: Global, name: &str) -> Result<(), NoMemory>;

    /// Plays a step of the case. Where it differs, what came is put.
    fn step(
        &mut self,
        alloc: Global,
        names: &Names,
        line: &str,
        come: &mut Vec<u8>,
    ) -> Result<Step, NoMemory>;

    /// The case is over. Where it differs only now, what came is put.
    fn end(&mut self, alloc: Global, names: &Names, come: &mut Vec<u8>) -> Result<Step, NoMemory>;
}

/// The present case: its name, if one was begun, and whether it came to something else already.
#[derive(Clone, Copy, Debug)]
struct Present<'a> {
    name: Option<&'a str>,
    differs: bool,
}

/// Tells of a step, and whether it held.
fn judged(
    alloc: Global,
    walk: &mut Walk,
    name: &str,
    line: &str,
    step: Step,
    come: &[u8],
) -> Result<bool, CasesFault> {
    match step {
        Step::Held => Ok(true),
        Step::Outside => Err(walk.outside()),
        Step::Differs => {
            walk.told.differs(alloc, name, walk.number, line, come)?;
            Ok(false)
        }
    }
}

fn end_case<P: Plays>(
    alloc: Global,
    walk: &mut Walk,
    plays: &mut P,
    present: Present<'_>,
) -> Result<(), CasesFault> {
    let Some(name) = present.name else {
        return Ok(());
    };
    let mut come = Vec::new(alloc);
    let step = plays.end(alloc, &walk.names, &mut come)?;
    if !present.differs {
        judged(alloc, walk, name, "the end", step, come.as_slice())?;
    }
    Ok(())
}

fn step_case<P: Plays>(
    alloc: Global,
    walk: &mut Walk,
    plays: &mut P,
    name: &str,
    line: &str,
) -> Result<bool, CasesFault> {
    let mut come = Vec::new(alloc);
    let step = plays.step(alloc, &walk.names, line, &mut come)?;
    judged(alloc, walk, name, line, step, come.as_slice())
}

/// Goes on with the present case, or begins the next.
fn go_on<'a, P: Plays>(
    alloc: Global,
    walk: &mut Walk,
    plays: &mut P,
    present: Present<'a>,
    line: &'a str,
) -> Result<Present<'a>, CasesFault> {
    if let Some(name) = line.strip_prefix("case ") {
        end_case(alloc, walk, plays, present)?;
        walk.told.count();
        plays.begin(alloc, name)?;
        return Ok(Present {
            name: Some(name),
            differs: false,
        });
    }
    let Some(name) = present.name else {
        return Err(walk.outside());
    };
    let differs = present.differs || !step_case(alloc, walk, plays, name, line)?;
    Ok(Present { differs, ..present })
}

/// What is told of a text of stories. Of a case whose step differs the others aren't played.
pub fn played<P: Plays>(alloc: Global, plays: &mut P, text: &str) -> Result<Told, CasesFault> {
    let mut walk = Walk::new(alloc);
    let mut present = Present {
        name: None,
        differs: false,
    };
    for line in text.lines() {
        if let Some(line) = walk.next(alloc, line)? {
            present = go_on(alloc, &mut walk, plays, present, line)?;
        }
    }
    end_case(alloc, &mut walk, plays, present)?;
    Ok(walk.told)
}
