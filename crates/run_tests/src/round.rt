//! The program calls itself, over sockets of the loopback.
use crate::outcome::outcome;
use rpc_base::NoMemory;
use std::alloc::Global;
use std::net::{Ipv4Addr, Net, TcpListener};
use std::rt::Clock;
use std::sync::Wait;
use std::test::*;
use std::thread;
use std::thread::Threads;
use std::time::Duration;

const PROBE: &str = "[uuid(5f0c7a12-3b4d-4e6f-8a90-b1c2d3e4f506), version(1.0)]
interface probe {
  typedef [context_handle] void *probe_h;
  error_status_t probe_open([in] handle_t b, [in] unsigned long n, [out] probe_h *h);
  error_status_t probe_close([in, out] probe_h *h);
}
";

const SCRIPT: &str = "bind 1 new
start 1 probe_open (5)
wait 1
start 1 probe_open (6)
wait 1
start 1 probe_close ($h1)
wait 1
start 1 probe_close ($h1)
wait 1
close 1
";

const CALLED: &[u8] = b"6
1 bound 1
1 done ($h1, 0)
1 done ($h2, 0)
1 done ($null, 0)
1 fault 1c00001a not-run
=>
";

const SERVED: &[u8] = b"0
connection 1 closed
stats 4 0 5 5
=>
group 1 boot 0102030405060708
join 1
accept 1 1 0.0 little answer opens:0:1 05000000
take 1 none
end 1 issue:1:5 out:000000000403020106050807000000010000000100000000
accept 2 1 0.0 little answer opens:0:2 06000000
take 2 none
end 2 issue:2:6 out:000000000403020106050807000000010000000200000000
accept 3 1 0.1 little answer changes:0:0000000001020304050607080000000100000001 0000000004030201060508070000000100000001
take 3 5
end 3 close out:000000000000000000000000000000000000000000000000
accept 4 1 0.1 little answer changes:0:0000000001020304050607080000000100000001 0000000004030201060508070000000100000001
deny 4 0
leave 1
shut 2:0:6
";

/// How often the caller looks for the server, 10 milliseconds apart.
const MOST_LOOKS: u32 = 1_000;

/// What comes of these words once somebody listens.
fn outcome_once_heard<R: Wait + Threads + Net + Clock + Send + Sync + Copy + 'static>(
    rt: &R,
    alloc: Global,
    words: &str,
) -> Result<Vec<u8>, NoMemory> {
    for _ in 0..MOST_LOOKS {
        let text = outcome(rt, alloc, words, &[("i", PROBE), ("s", SCRIPT)])?;
        if !text.starts_with(b"7") {
            return Ok(text);
        }
        thread::sleep(rt, Duration::from_millis(10));
    }
    Ok(Vec::new(alloc))
}

#[test]
fn the_program_calls_its_own_server(rt: HostRuntime) -> Result<(), Fail> {
    let alloc = rt.alloc();
    let listener = TcpListener::bind(&rt, (Ipv4Addr::LOCALHOST, 0))?;
    let port = listener.local_addr()?.port();
    drop(listener);
    let serve = format!(in alloc; "serve 127.0.0.1:{port} --connections 1")?;
    let call = format!(in alloc; "call 127.0.0.1:{port} i s")?;
    let (served, called) = thread::join(
        &rt,
        || outcome(&rt, alloc, serve.as_str(), &[]),
        || outcome_once_heard(&rt, alloc, call.as_str()),
    );
    assert_eq!(rt; called?.as_slice(), CALLED);
    assert_eq!(rt; served?.as_slice(), SERVED);
    Ok(())
}
