//! The status by the endings of connections.
ghost use Rattle.std.specs.Prelude.{◌≡◌};
ghost use Rattle.std.specs.List.{list_any, list_all};
ghost use Rattle.server_command.specs.Statuses as spec;
ghost use Rattle.server_command.specs.Statuses.{status_by};

use server_ends::Ending;

fn is_closed(why: &Ending) -> bool
    ensures { result ≡ spec.is_closed why.now }
{
    matches!(why, Ending::Closed)
}

fn is_memory(why: &Ending) -> bool
    ensures { result ≡ spec.is_memory why.now }
{
    matches!(why, Ending::Memory)
}

fn any_memory(whys: &[Ending]) -> bool
    ensures { result ≡ list_any spec.is_memory whys.now }
{
    whys.iter().any(|why| is_memory(why))
}

fn all_closed(whys: &[Ending]) -> bool
    ensures { result ≡ list_all spec.is_closed whys.now }
{
    whys.iter().all(|why| is_closed(why))
}

/// The status of connections with these endings: 0 where each ended behind a whole PDU, 5 where memory ran out on one,
/// else 8.
pub fn status_of(whys: &[Ending]) -> u8
    ensures { result ≡ status_by whys.now }
{
    if any_memory(whys) {
        5
    } else if all_closed(whys) {
        0
    } else {
        8
    }
}
