//! Reads an address.
ghost use Rattle.std.specs.Prelude.{◌≡◌, ◌<◌, ◌^◌, [], ◌∷◌, length};
ghost use Rattle.base_words.specs.Reads.{Reads};
ghost use Rattle.app_words.specs.Texts.{FitsHost, host_text, Tail, FitsTail, tail_text, Two, Three, FitsTwo, FitsThree, two_text, three_text};

use base_words::{cut_at, read_u8, read_u16};

/// The last number, and the port after the colon.
fn read_last(text: &[u8]) -> Option<(u8, u16)>
    ensures { Reads FitsTail tail_text text.now result }
{
    let (number, rest) = cut_at(b':', text)?;
    let number = read_u8(number)?;
    let port = read_u16(rest)?;
    Some((number, port))
}

/// The last two numbers and the port.
fn read_two(text: &[u8]) -> Option<(u8, (u8, u16))>
    ensures { Reads FitsTwo two_text text.now result }
{
    let (number, rest) = cut_at(b'.', text)?;
    let number = read_u8(number)?;
    let tail = read_last(rest)?;
    Some((number, tail))
}

/// The last three numbers and the port.
fn read_three(text: &[u8]) -> Option<(u8, (u8, (u8, u16)))>
    ensures { Reads FitsThree three_text text.now result }
{
    let (number, rest) = cut_at(b'.', text)?;
    let number = read_u8(number)?;
    let tail = read_two(rest)?;
    Some((number, tail))
}

/// The four numbers of an address and its port. It takes no memory.
pub fn read_address(text: &[u8]) -> Option<([u8; 4], u16)>
    ensures { Reads FitsHost host_text text.now result }
{
    let (first, rest) = cut_at(b'.', text)?;
    let first = read_u8(first)?;
    let (second, (third, (fourth, port))) = read_three(rest)?;
    Some(([first, second, third, fourth], port))
}
