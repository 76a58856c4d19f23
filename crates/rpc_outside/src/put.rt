//! Whole pieces.
ghost use Rattle.std.specs.Prelude.{◌≡◌, false};
ghost use Rattle.rpc_outside.specs.Links.{PutsAll};

use crate::link::Link;
use rpc_base::Failed;

/// Puts a whole piece on a link, in as many calls as it takes.
///
/// # Errors
///
/// `Failed` where a put failed; a front of the piece was put.
pub fn put_all<K: Link>(link: &mut K, piece: &[u8]) -> Result<(), Failed>
    requires { (K.shows link.old).closed ≡ false }
    ensures { PutsAll (K.shows link.old) piece.now result (K.shows link.new) }
{
    let mut done = 0;
    while done < piece.len() {
        match link.put(&piece[done..]) {
            Ok(count) => done += count,
            Err(failed) => return Err(failed),
        }
    }
    Ok(())
}
