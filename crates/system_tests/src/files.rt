//! Files by their names, and what is written, over the system.
use base_system::{FileShelf, Output};
use rpc_base::{Failed, OutFault, Shelf, Sink, put_all};
use std::fs;
use std::test::Fail;

#[test]
fn files_are_loaded_by_name(rt: HostRuntime) -> Result<(), Fail> {
    let alloc = rt.alloc();
    fs::write(&rt, "some", "nine octets")?;
    let mut shelf = FileShelf::new(&rt);
    for (most, want) in [(4, "nine"), (11, "nine octets"), (12, "nine octets")] {
        let Ok(octets) = shelf.load(alloc, "some", most) else {
            panic!(rt; "not loaded");
        };
        assert_eq!(rt; octets.as_slice(), want.as_bytes());
    }
    assert_eq!(rt; shelf.load(alloc, "other", 4).err(), Some(OutFault::Failed));
    assert_eq!(rt; shelf.faults, 1);
    Ok(())
}

#[test]
fn octets_reach_the_writer(rt: HostRuntime) -> Result<(), Fail> {
    let mut room = [0u8; 8];
    let mut out = Output::new(room.as_mut_slice());
    assert_eq!(rt; put_all(&mut out, b"octets"), Ok(()));
    assert_eq!(rt; out.put(b"xyz"), Ok(2));
    assert_eq!(rt; out.put(b"z"), Err(Failed));
    assert_eq!(rt; out.faults, 1);
    assert_eq!(rt; room.as_slice(), b"octetsxy".as_slice());
    Ok(())
}
