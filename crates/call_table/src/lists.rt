//! Lists for the cookies of calls that may yet start, whose memory is taken beforehand.
ghost use Rattle.std.specs.Prelude.{◌≡◌, ◌≤◌, take, vec_len, IfOk, OnOk};
ghost use Rattle.std.specs.List.{All};
ghost use Rattle.call_table.specs.Kept.{blank};

use handle_model::Cookies;
use rpc_base::{Items, NoMemory};
use std::alloc::Global;

/// Adds lists until there are as many as are wanted.
///
/// # Errors
/// `NoMemory` where memory runs out; what was added by then stays.
pub fn fill(alloc: Global, lists: &mut Vec<Cookies>, wanted: usize) -> Result<(), NoMemory>
    requires { All (λ b. b ≡ blank) lists.old.items }
    ensures ok { OnOk result (wanted ≤ vec_len lists.new) }
    ensures more { vec_len lists.old ≤ vec_len lists.new }
    ensures blanks { All (λ b. b ≡ blank) lists.new.items }
{
    while lists.len() < wanted {
        lists.push(blank_list(alloc)?)?;
    }
    Ok(())
}

/// A list of four empty places.
fn blank_list(alloc: Global) -> Result<Cookies, NoMemory>
    ensures { IfOk result (λ b. b ≡ blank) }
{
    Ok(Items::from_vec(vec![in alloc; None; 4]?))
}

/// The first places of a list. It takes no memory.
pub fn cut(list: Cookies, count: usize) -> Cookies
    ensures { result ≡ take count list }
{
    let mut places = list.into_vec();
    places.truncate(count);
    Items::from_vec(places)
}
