//! The program `hello_server ADDRESS N`: a server of hello, of the endpoint map and of management, which serves the next N
//! connections that come to the address, 1 to 1,000,000. It prints what `dcerpc serve` prints.
//!
//! `docs/SERVICES.md` goes through it; `docs/new_service.sh` copies it for a service of one's own.
#![tactic(auto)]

mod desks;
mod endpoints;
mod managed;
mod offered;
mod run;
mod served;
mod service;
mod words;

use base_system::{Output, SocketDoor};
use std::alloc::Global;
use std::process::ExitCode;
use std::rt::{Clock, Env};
use std::time::{SystemTime, UNIX_EPOCH};
use std::{env, io};

/// Memory ran out.
const NO_MEMORY: u8 = 5;

/// The words after the program's name. Words that can't be had, as one that isn't UTF-8, are no words.
fn given_words(rt: &(impl Env + AllocGlobal), alloc: Global) -> Result<Vec<String>, u8> {
    let mut words = Vec::new(alloc);
    let Ok(all) = env::args(rt) else {
        return Ok(words);
    };
    for word in all.skip(1) {
        if words.push(word).is_err() {
            return Err(NO_MEMORY);
        }
    }
    Ok(words)
}

/// The boot word of a server: the clock's nanoseconds, so that another run has another word. It is 0 where the clock can't be
/// read.
fn boot_word(rt: &impl Clock) -> u64 {
    let Ok(now) = SystemTime::now(rt) else {
        return 0;
    };
    match now.duration_since(UNIX_EPOCH) {
        Ok(since) => (since.as_nanos() % (1 << 64)) as u64,
        Err(_) => 0,
    }
}

fn main(rt: HostRuntime) -> ExitCode {
    let alloc = rt.alloc();
    let status = match given_words(&rt, alloc) {
        Ok(words) => {
            let mut door = SocketDoor::new(&rt, alloc);
            let mut out = Output::new(io::writer(&rt));
            let mut log = Output::new(rt.stderr());
            let boot = boot_word(&rt);
            run::run(
                &rt,
                alloc,
                words.as_slice(),
                boot,
                &mut door,
                &mut out,
                &mut log,
            )
        }
        Err(status) => status,
    };
    ExitCode::from(status)
}
