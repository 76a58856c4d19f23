//! The program `dcerpc`: its words are a command and what it takes.
//!
//! It makes the real objects of the outside, hands them and the words to the top call, and ends with
//! the status that it answers.
#![tactic(auto)]

use base_system::{FileShelf, Output, SocketDial, SocketDoor};
use std::alloc::Global;
use std::process::ExitCode;
use std::rt::{Clock, Env};
use std::time::{SystemTime, UNIX_EPOCH};
use std::{env, io};

/// Want of memory.
const NO_MEMORY: u8 = 5;

/// The words after the program's name. Words that can't be had, as one that isn't UTF-8, are no words.
fn words(rt: &(impl Env + AllocGlobal), alloc: Global) -> Result<Vec<String>, u8> {
    let mut words = Vec::new(alloc);
    let Ok(all) = env::args(rt) else {
        return Ok(words);
    };
    for word in all.skip(1) {
        if words.push(word).is_err() {
            return Err(NO_MEMORY);
        }
    }
    Ok(words)
}

/// The boot word of a server: the clock's nanoseconds, so that another run has another word. It is 0 where the clock can't be
/// read.
fn boot_word(rt: &impl Clock) -> u64 {
    let Ok(now) = SystemTime::now(rt) else {
        return 0;
    };
    match now.duration_since(UNIX_EPOCH) {
        Ok(since) => (since.as_nanos() % (1 << 64)) as u64,
        Err(_) => 0,
    }
}

fn main(rt: HostRuntime) -> ExitCode {
    let alloc = rt.alloc();
    let status = match words(&rt, alloc) {
        Ok(words) => {
            let mut shelf = FileShelf::new(&rt);
            let mut out = Output::new(io::writer(&rt));
            let mut log = Output::new(rt.stderr());
            let mut door = SocketDoor::new(&rt, alloc);
            let mut dial = SocketDial::new(&rt, alloc);
            let words = words.as_slice();
            let boot = boot_word(&rt);
            rpc_app::run(
                &rt, alloc, words, boot, &mut shelf, &mut door, &mut dial, &mut out, &mut log,
            )
        }
        Err(status) => status,
    };
    ExitCode::from(status)
}
