//! The words of the program.
ghost use Rattle.std.specs.Prelude.{◌≤◌, MatchOption, ⊤};

use app_words::read_address;
use base_words::read_u32;
use rpc_outside::Address;

/// The most connections that the words may ask for.
pub const MOST: u32 = 1_000_000;

/// What the words ask for: an address, and how many connections are served there.
#[derive(Clone, Copy, Debug)]
pub struct Asked {
    pub at: Address,
    pub most: u32,
}

/// What the words ask for. None where they aren't an address `A.B.C.D:PORT` and a number from 1 to 1,000,000.
pub fn read_words(words: &[String]) -> Option<Asked>
    ensures { MatchOption result ⊤ (λ a. a.most ≤ MOST) }
{
    if words.len() != 2 {
        return None;
    }
    let (ip, port) = read_address(words[0].as_bytes())?;
    let most = read_u32(words[1].as_bytes())?;
    if most == 0 || most > MOST {
        return None;
    }
    Some(Asked {
        at: Address { ip, port },
        most,
    })
}
