//! How long a command's file may be.
ghost use Rattle.std.specs.Prelude.{◌≡◌};
ghost use Rattle.rpc_app.specs.Commands as spec;

use crate::command::Command;

/// The longest script of calls, in octets: 64 MiB.
pub const CALL_LIMIT: usize = 67_108_864;

/// The longest file that a command takes, in octets: 64 MiB of a script or of journals, 1 MiB of an
/// interface text.
pub fn limit(command: Command) -> usize
    ensures { result ≡ spec.limit command }
{
    match command {
        Command::Replay => 67_108_864,
        Command::Idl => 1_048_576,
        Command::Audit => 67_108_864,
    }
}
