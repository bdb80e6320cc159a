// The store and the sink in memory.
use light_base::{MemSink, MemStore, Sink, SinkFault, Store, StoreFault};
use std::test::Fail;

#[test]
fn files_in_memory(rt: HostRuntime) -> Result<(), Fail> {
    let alloc = rt.alloc();
    let mut store = MemStore::new(alloc, Vec::from_slice(alloc, &[3, 5])?);
    store.put_file("a", b"12345")?;
    assert_eq!(rt; store.file("a"), Some(b"12345".as_slice()));
    assert_eq!(rt; store.file("b"), None);

    // Calls 1 and 2: at most as many bytes as it has, and one fewer.
    assert_eq!(rt; store.load(alloc, "a", 5)?.as_slice(), b"12345".as_slice());
    assert!(rt;
        matches!(
            store.load(alloc, "a", 4),
            Err(StoreFault::TooLong { taken: 5 })
        )
    );

    // Call 3 fails, and leaves the first half.
    assert_eq!(rt; store.save("a", b"67890"), Err(StoreFault::Failed));
    assert_eq!(rt; store.file("a"), Some(b"67".as_slice()));

    // Call 4 saves, call 5 fails, and call 6 loads a name that isn't there.
    assert_eq!(rt; store.save("b", b"xyz"), Ok(()));
    assert!(rt; matches!(store.load(alloc, "b", 9), Err(StoreFault::Failed)));
    assert!(rt; matches!(store.load(alloc, "c", 9), Err(StoreFault::Failed)));
    assert_eq!(rt; store.file("b"), Some(b"xyz".as_slice()));
    Ok(())
}

#[test]
fn pieces_in_memory(rt: HostRuntime) -> Result<(), Fail> {
    let alloc = rt.alloc();
    let mut sink = MemSink::new(alloc, 5, Vec::from_slice(alloc, &[2])?);
    assert_eq!(rt; sink.put(b"thread 0"), Ok(5));
    assert_eq!(rt; sink.put(b"d 0"), Err(SinkFault::Failed));
    assert_eq!(rt; sink.taken(), b"threa".as_slice());
    assert_eq!(rt; sink.put(b"d 0"), Ok(3));
    assert_eq!(rt; sink.taken(), b"thread 0".as_slice());
    Ok(())
}
