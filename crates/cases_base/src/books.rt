//! Texts of stories, read as a whole, for those who play stories one by one.

use crate::fault::CasesFault;
use crate::names::Names;
use crate::walk::Walk;
use rpc_base::NoMemory;
use std::alloc::Global;

/// A step: its line, and the number of that in the text, from 1 on.
#[derive(Debug, Drop)]
pub struct StoryLine {
    pub number: u64,
    pub text: String,
}

/// A story: the line that names it, and its steps.
#[derive(Debug, Drop)]
pub struct Story {
    pub name: StoryLine,
    pub steps: Vec<StoryLine>,
}

/// The stories of a text, and all names that it gives.
#[derive(Debug, Drop)]
pub struct Book {
    pub names: Names,
    pub stories: Vec<Story>,
}

fn story_line(alloc: Global, number: u64, text: &str) -> Result<StoryLine, NoMemory> {
    Ok(StoryLine {
        number,
        text: String::from_str(alloc, text)?,
    })
}

/// Puts a line of stories: one begins, or the last one goes on. False where none was begun.
fn put_line(
    alloc: Global,
    number: u64,
    line: &str,
    stories: &mut Vec<Story>,
) -> Result<bool, NoMemory> {
    if let Some(name) = line.strip_prefix("case ") {
        stories.push(Story {
            name: story_line(alloc, number, name)?,
            steps: Vec::new(alloc),
        })?;
        return Ok(true);
    }
    let step = story_line(alloc, number, line)?;
    match stories.last_mut() {
        Some(story) => {
            story.steps.push(step)?;
            Ok(true)
        }
        None => Ok(false),
    }
}

/// The stories of a text.
///
/// # Errors
///
/// `Line` at a line that is none of stories, `Memory` where there is no memory for them.
pub fn read_book(alloc: Global, text: &str) -> Result<Book, CasesFault> {
    let mut walk = Walk::new(alloc);
    let mut stories = Vec::new(alloc);
    for line in text.lines() {
        let Some(line) = walk.next(alloc, line)? else {
            continue;
        };
        if !put_line(alloc, walk.number, line, &mut stories)? {
            return Err(walk.outside());
        }
    }
    let Walk { names, .. } = walk;
    Ok(Book { names, stories })
}
