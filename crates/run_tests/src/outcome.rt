//! What comes of a run over sockets, as a text.

use base_system::{SocketDial, SocketDoor};
use rpc_app::run;
use rpc_base::{MapShelf, NoMemory, Numbers, Octets, ShelfFile, ShelfFiles, VecSink};
use rpc_outside::{Dial, Door};
use std::alloc::Global;
use std::net::Net;
use std::sync::Wait;
use std::thread::Threads;

/// The server's boot word.
const BOOT: u64 = 0x0102_0304_0506_0708;

/// The words of a line.
fn words_of(alloc: Global, line: &str) -> Result<Vec<String>, NoMemory> {
    let mut words = Vec::new(alloc);
    for word in line.split_whitespace() {
        words.push(String::from_str(alloc, word)?)?;
    }
    Ok(words)
}

/// A shelf on which files have these names and texts.
fn shelf_of(alloc: Global, texts: &[(&str, &str)]) -> Result<MapShelf, NoMemory> {
    let mut files = ShelfFiles::new(alloc);
    for (name, text) in texts {
        files.push(ShelfFile {
            name: Octets::from_vec(name.as_bytes().to_vec(alloc)?),
            octets: Octets::from_vec(text.as_bytes().to_vec(alloc)?),
        })?;
    }
    Ok(MapShelf::new(files, Numbers::new(alloc)))
}

/// The program over these words, of which it has the status. What its contract says isn't said again: the test compares
/// what came.
fn ran<R, D, Q>(
    rt: &R,
    alloc: Global,
    words: &[String],
    shelf: &mut MapShelf,
    door: &mut D,
    dial: &mut Q,
    out: &mut VecSink,
    log: &mut VecSink,
) -> u8
where
    R: Wait + Threads + Send + Sync + Copy + 'static,
    D: Door,
    D::Link: 'static,
    Q: Dial,
{
    run(rt, alloc, words, BOOT, shelf, door, dial, out, log)
}

/// The status, what is on out and what is on log behind these words, where files have these texts.
pub fn outcome<R: Wait + Threads + Net + Send + Sync + Copy + 'static>(
    rt: &R,
    alloc: Global,
    words: &str,
    texts: &[(&str, &str)],
) -> Result<Vec<u8>, NoMemory> {
    let list = words_of(alloc, words)?;
    let mut door = SocketDoor::new(rt, alloc);
    let mut dial = SocketDial::new(rt, alloc);
    let mut shelf = shelf_of(alloc, texts)?;
    let mut out = VecSink::new(alloc, Numbers::new(alloc));
    let mut log = VecSink::new(alloc, Numbers::new(alloc));
    let words = list.as_slice();
    let status = ran(
        rt, alloc, words, &mut shelf, &mut door, &mut dial, &mut out, &mut log,
    );
    let head = format!(in alloc; "{status}\n")?;
    let mut text = head.as_bytes().to_vec(alloc)?;
    text.extend_from_slice(out.written().as_slice())?;
    text.extend_from_slice(b"=>\n")?;
    text.extend_from_slice(log.written().as_slice())?;
    Ok(text)
}
