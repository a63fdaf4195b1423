// Stores and sinks: planned faults of those in memory, and the system's own.
use cs_io::{DirStore, Failed, MemSink, MemStore, OutSink, Sink, Store, StoreError};
use std::alloc::Global;
use std::env;

// Whether the read of a file that holds `abcd` gives these bytes, or has this fault.
fn is_read(
    alloc: Global,
    store: &mut impl Store,
    name: &str,
    most: u64,
    fault: Option<StoreError>,
) -> bool {
    match store.read(alloc, name, most) {
        Ok(bytes) => fault.is_none() && bytes.as_slice() == b"abcd".as_slice(),
        Err(error) => fault == Some(error),
    }
}

#[test]
fn missing_file_long_file_and_planned_fault(rt: HostRuntime) {
    let alloc = rt.alloc();
    let mut store = MemStore::new(alloc);
    assert!(rt; store.add("four", b"abcd").is_ok() && store.fail_at(4, 0).is_ok());
    for (call, name, most, fault) in [
        (1, "none", 9, Some(StoreError::Failed)),
        (2, "four", 3, Some(StoreError::TooLong { most: 3 })),
        (3, "four", 4, None),
        (4, "four", 4, Some(StoreError::Failed)),
        (5, "four", 4, None),
    ] {
        assert!(rt;
            is_read(alloc, &mut store, name, most, fault),
            "read {call}"
        );
    }
}

#[test]
fn a_failed_write_keeps_seven_bytes(rt: HostRuntime) {
    let mut store = MemStore::new(rt.alloc());
    assert!(rt; store.fail_at(1, 7).is_ok());
    for (fault, kept) in [(Err(Failed), b"a netli".as_slice()), (Ok(()), b"a netlist")] {
        assert!(rt; store.write("out", b"a netlist") == fault && store.dry() == 0);
        assert!(rt; store.file("out") == Some(kept));
    }
}

#[test]
fn a_failed_put_keeps_three_bytes(rt: HostRuntime) {
    let mut sink = MemSink::new(rt.alloc());
    assert!(rt; sink.fail_at(2, 3).is_ok());
    assert!(rt; sink.put(b"a ").is_ok() && sink.put(b"report") == Err(Failed));
    assert!(rt; sink.bytes() == b"a rep".as_slice() && sink.dry() == 0);
}

#[test]
fn a_real_file_is_read_back(rt: HostRuntime) {
    let alloc = rt.alloc();
    let folder = env::temp_dir(&rt).expect(&rt, "a folder");
    let path = folder.as_path().join(alloc, "cs_io_a_real_file");
    let path = path.expect(&rt, "a path");
    let name = path.as_path().to_str().expect(&rt, "a path in UTF-8");
    let mut store = DirStore::new(&rt);
    assert!(rt; store.write(name, b"abcd").is_ok());
    assert!(rt; is_read(alloc, &mut store, name, 4, None));
    let long = StoreError::TooLong { most: 3 };
    assert!(rt; is_read(alloc, &mut store, name, 3, Some(long)));
}

#[test]
fn standard_output_takes_bytes(rt: HostRuntime) {
    assert!(rt; OutSink::new(&rt).put(b"bytes\n").is_ok());
}
