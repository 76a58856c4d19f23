//! What is put on the outputs.
ghost use Rattle.std.specs.Prelude.{◌≡◌, ◌⊎◌, ◌<◌};
ghost use Rattle.rpc_base.specs.Causes.{Rose};
ghost use Rattle.rpc_app.specs.Calling.{IsSaid};
ghost use Rattle.rpc_app.specs.Runs.{Gains, GainsFront, EndsEarly};
ghost use Rattle.rpc_app.specs.Obeys.{output_from};

use rpc_base::{Sink, put_all};

/// Puts a refusal, and answers its status.
pub fn refuse<S: Sink>(out: &mut S, text: &[u8], status: u8) -> u8
    requires { status < 4 }
    ensures known { (result ≡ status) ⊎ (result ≡ 4) }
    ensures said { result ≡ status → Gains (S.written out.old) (S.written out.new) text.now }
    ensures failed { result ≡ 4 → Rose (S.faults out.old) (S.faults out.new) }
    ensures front { result ≡ 4 → GainsFront (S.written out.old) (S.written out.new) text.now }
{
    match put_all(out, text) {
        Ok(()) => status,
        Err(_) => 4,
    }
}

/// Puts a text, after which the program ends with that status, and answers it; where the output fails 4, which 7 outweighs.
pub fn end_with<S: Sink>(out: &mut S, text: &[u8], status: u8) -> u8
    ensures { IsSaid (output_from S.faults S.written out.old out.new)
        text.now status result }
{
    if put_all(out, text).is_ok() {
        return status;
    }
    if status == 7 {
        return 7;
    }
    4
}

/// Puts a text on out, and then one on log.
pub fn print<S: Sink, L: Sink>(printed: &[u8], logged: &[u8], out: &mut S, log: &mut L) -> u8
    ensures known { (result ≡ 0) ⊎ (result ≡ 4) }
    ensures out { result ≡ 0 → Gains (S.written out.old) (S.written out.new) printed.now }
    ensures log { result ≡ 0 → Gains (L.written log.old) (L.written log.new) logged.now }
    ensures failed { result ≡ 4 → Rose (S.faults out.old) (S.faults out.new) ⊎ Rose (L.faults log.old) (L.faults log.new) }
    ensures fronts { result ≡ 4 → EndsEarly (S.written out.old) (S.written out.new) (L.written log.old) (L.written log.new) printed.now logged.now }
{
    if put_all(out, printed).is_err() {
        return 4;
    }
    if put_all(log, logged).is_err() {
        return 4;
    }
    0
}
