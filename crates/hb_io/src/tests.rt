//! The devices with ample memory: those in memory, and one real file for each adapter.
use super::*;
use std::io;
use std::test::Fail;

#[test]
fn a_depot_in_memory_fails_where_it_is_told_to(rt: HostRuntime) -> Result<(), Fail> {
    let mut depot = MemoryDepot::new(rt.alloc(), [2].to_vec(rt.alloc())?, false);
    depot.put("a.v", b"old")?;
    depot.put("a.v", b"new one")?;
    let mut buf = [0u8; 4];
    for (name, place, answer, bytes) in [
        ("a.v", 4, Ok(3), b"one\0"),
        ("a.v", 0, Err(DepotFault::Failed), b"one\0"),
        ("a.v", 0, Ok(4), b"new "),
        ("b.v", 0, Err(DepotFault::Absent), b"new "),
        ("a.v", 7, Ok(0), b"new "),
    ] {
        assert_eq!(rt; depot.read(name, place, &mut buf), answer);
        assert_eq!(rt; &buf, bytes);
    }
    assert_eq!(rt; depot.save("b.v", b"saved"), Ok(()));
    assert_eq!(rt; depot.read("b.v", 1, &mut buf), Ok(4));
    assert_eq!(rt; &buf, b"aved");
    Ok(())
}

#[test]
fn a_sink_in_memory_takes_pieces(rt: HostRuntime) -> Result<(), Fail> {
    for (most, fails, nothing_fails, answer, held) in [
        (1, 9, false, Ok(()), "accepted"),
        (3, 2, false, Err(SinkFault::Failed), "acc"),
        (3, 2, true, Ok(()), "accepted"),
        (9, 1, false, Err(SinkFault::Failed), ""),
    ] {
        let mut sink = MemorySink::new(
            rt.alloc(),
            [fails].to_vec(rt.alloc())?,
            nothing_fails,
            most,
        );
        assert_eq!(rt; write_all(&mut sink, b"accepted"), answer);
        assert_eq!(rt; sink.told(), Some(held.as_bytes()));
    }
    Ok(())
}

#[test]
fn a_real_file_is_saved_and_read_whole(rt: HostRuntime) -> Result<(), Fail> {
    let mut depot = FileDepot::new(&rt);
    assert_eq!(rt; depot.save("a.v", b"Axiom nat : Type.\n"), Ok(()));
    for (most, read) in [(18, Some("Axiom nat : Type.\n")), (17, None)] {
        let found = match read_whole(rt.alloc(), &mut depot, "a.v", most)? {
            Whole::Bytes(bytes) => Some(bytes),
            Whole::TooLong => None,
        };
        assert_eq!(rt;
            found.as_ref().map(|bytes| bytes.as_slice()),
            read.map(|text| text.as_bytes())
        );
    }
    assert_eq!(rt;
        depot.read("b.v", 0, &mut [0u8; 4]),
        Err(DepotFault::Absent)
    );
    assert_eq!(rt; depot.read(".", 0, &mut [0u8; 4]), Err(DepotFault::Failed));
    assert_eq!(rt; depot.save("none/a.v", b""), Err(DepotFault::Failed));
    Ok(())
}

#[test]
fn standard_output_takes_all(rt: HostRuntime) -> Result<(), Fail> {
    let mut out = OutSink::new(io::writer(&rt));
    assert_eq!(rt; write_all(&mut out, b"out\n"), Ok(()));
    assert_eq!(rt; out.told(), None);
    Ok(())
}

#[test]
fn a_real_file_is_made_at_the_first_write(rt: HostRuntime) -> Result<(), Fail> {
    let name = String::from_str(rt.alloc(), "o.v")?;
    let mut sink = FileSink::new(rt.clone()?, name);
    assert_eq!(rt; write_all(&mut sink, b"accepted"), Ok(()));
    assert_eq!(rt; sink.told(), None);
    let mut depot = FileDepot::new(&rt);
    match read_whole(rt.alloc(), &mut depot, "o.v", 99)? {
        Whole::Bytes(bytes) => assert_eq!(rt; bytes.as_slice(), b"accepted".as_slice()),
        Whole::TooLong => assert!(rt; false),
    }
    Ok(())
}
