//! The devices in memory: what they give and take, in which calls they fail, and what stays then.

use kk_base::{Next, NoMemory, Put, Read, Sink, Source, Store, Wrote};
use kk_memio::{MemSink, MemSource, MemStore, PlainSource, TallySink};
use std::alloc::Global;
use std::test::Fail;

/// The bytes of a file, at most so many; none where the read fails.
fn read_from(
    store: &mut MemStore,
    alloc: Global,
    name: &str,
    at_most: usize,
) -> Result<Option<Vec<u8>>, NoMemory> {
    match store.read(alloc, name, at_most) {
        Read::Bytes(bytes) => Ok(Some(bytes.into_vec())),
        Read::Failed => Ok(None),
        Read::NoMemory => Err(NoMemory),
    }
}

#[test]
fn a_source_fails_in_the_planned_calls(rt: HostRuntime) -> Result<(), Fail> {
    let mut source = MemSource::new(rt.alloc(), b"ab", &[4, 2])?;
    for expected in [
        Next::Byte(b'a'),
        Next::Failed,
        Next::Byte(b'b'),
        Next::Failed,
        Next::End,
        Next::End,
    ] {
        assert_eq!(rt; source.next(), expected);
    }
    let mut plain = PlainSource::new(rt.alloc(), b"a")?;
    for expected in [Next::Byte(b'a'), Next::End, Next::End] {
        assert_eq!(rt; plain.next(), expected);
    }
    Ok(())
}

#[test]
fn a_sink_fails_in_the_planned_calls_and_past_its_room(rt: HostRuntime) -> Result<(), Fail> {
    let mut sink = MemSink::new(rt.alloc(), 5, &[2])?;
    for (piece, expected, held) in [
        ("abc", Put::All, "abc"),
        ("d", Put::Failed(0), "abc"),
        ("def", Put::Failed(2), "abcde"),
        ("", Put::All, "abcde"),
    ] {
        assert_eq!(rt; sink.put(piece.as_bytes()), expected);
        assert_eq!(rt; sink.held_bytes(), held.as_bytes());
    }
    let mut tally = TallySink::new();
    for (piece, expected) in [("abc", 3), ("de", 5)] {
        assert_eq!(rt; tally.put(piece.as_bytes()), Put::All);
        assert_eq!(rt; tally.tally(), expected);
    }
    Ok(())
}

#[test]
fn a_store_fails_in_the_planned_calls_and_without_a_file(rt: HostRuntime) -> Result<(), Fail> {
    let mut store = MemStore::new(rt.alloc(), &[4, 6])?;
    store.add_file("a", b"xyz")?;
    for (at_most, expected) in [(2, "xy"), (4, "xyz")] {
        let read = read_from(&mut store, rt.alloc(), "a", at_most)?.ok_or("failed")?;
        assert_eq!(rt; read.as_slice(), expected.as_bytes());
    }
    for name in ["b", "a"] {
        assert!(rt;
            read_from(&mut store, rt.alloc(), name, 4)?.is_none(),
            "at {name}"
        );
    }
    for (bytes, expected, content) in [
        ("one", Wrote::Done, "one"),
        ("two", Wrote::Failed, "one"),
        ("three", Wrote::Done, "three"),
    ] {
        assert_eq!(rt; store.write("b", bytes.as_bytes()), expected);
        assert_eq!(rt; store.file_bytes("b").ok_or("missing")?, content.as_bytes());
    }
    Ok(())
}
