use crate::SegmentStore;
use crate::frame_store::FrameStore;
use crate::quota_store::QuotaStore;
use crate::span_store::SpanStore;
use pointer_offset::Denial;
use std::process::Abort;
use std::test::Fail;

// The number of a denial, if it is one.
fn number_of<T: Drop, E: Denial + Drop>(answer: Result<T, E>) -> Option<u8> {
    answer.err().map(|error| error.number())
}

// Each of these takes an empty store with room for one segment of up to 4096 bytes, and leaves it empty.

fn one_segment_fills_it<S: SegmentStore>(rt: &impl Abort, store: &mut S) -> Result<(), Fail> {
    assert!(rt; store.is_empty() && store.has_room(4096));
    let log = store.make(b"log", 4096, 7)?;
    assert_eq!(rt; store.payload_size(log.handle), Some(4096));
    assert!(rt; !store.is_empty() && !store.has_room(1));
    assert_eq!(rt; number_of(store.make(b"map", 1, 7)), Some(26));
    assert_eq!(rt; store.withdraw(log.handle)?, false);
    assert!(rt; store.is_empty() && store.has_room(4096));
    Ok(())
}

fn one_byte_too_many<S: SegmentStore>(rt: &impl Abort, store: &mut S) {
    assert!(rt; !store.has_room(4097));
    assert_eq!(rt; number_of(store.make(b"log", 4097, 7)), Some(26));
    assert!(rt; store.is_empty() && store.has_room(4096));
}

fn denials_have_an_order<S: SegmentStore>(rt: &impl Abort, store: &mut S) -> Result<(), Fail> {
    let log = store.make(b"log", 4096, 7)?;
    assert_eq!(rt; number_of(store.make(b"", 0, 7)), Some(2));
    assert_eq!(rt; number_of(store.make(&[b'n'; 33], 1, 7)), Some(2));
    assert_eq!(rt; number_of(store.make(b"log", 0, 7)), Some(25));
    assert_eq!(rt; number_of(store.make(b"log", 1, 7)), Some(24));
    assert_eq!(rt; store.withdraw(log.handle)?, false);
    Ok(())
}

fn a_nameless_segment_takes_room<S: SegmentStore>(
    rt: &impl Abort,
    store: &mut S,
) -> Result<(), Fail> {
    let log = store.make(b"log", 4096, 7)?;
    let again = store.open(b"log")?;
    assert_eq!(rt; again, log);
    assert_eq!(rt; store.withdraw(log.handle)?, true);
    assert!(rt; !store.is_named(b"log") && store.open(b"log").is_err());
    assert!(rt; !store.has_room(1));
    assert_eq!(rt; store.close(log.handle)?, false);
    assert!(rt; store.has_room(4096));
    Ok(())
}

fn a_named_segment_takes_room<S: SegmentStore>(rt: &impl Abort, store: &mut S) -> Result<(), Fail> {
    let log = store.make(b"log", 4096, 7)?;
    assert_eq!(rt; store.close(log.handle)?, true);
    assert!(rt; store.is_named(b"log") && store.close(log.handle).is_err());
    assert!(rt; !store.has_room(1));
    assert_eq!(rt; store.withdraw(log.handle)?, false);
    assert!(rt; store.has_room(4096) && store.withdraw(log.handle).is_err());
    Ok(())
}

fn writes_end_with_the_payload<S: SegmentStore>(
    rt: &impl Abort,
    store: &mut S,
) -> Result<(), Fail> {
    let log = store.make(b"log", 10, 7)?;
    assert_eq!(rt; number_of(store.write(log.handle, 8, b"xy")), None);
    assert_eq!(rt; number_of(store.write(log.handle, 9, b"xy")), Some(5));
    assert_eq!(rt;
        number_of(store.write(log.handle, u64::MAX, b"xy")),
        Some(5)
    );
    assert_eq!(rt; store.withdraw(log.handle)?, false);
    assert_eq!(rt; number_of(store.write(log.handle, 0, b"xy")), Some(17));
    Ok(())
}

fn reads_end_with_the_payload<S: SegmentStore>(rt: &impl Abort, store: &mut S) -> Result<(), Fail> {
    let log = store.make(b"log", 10, 7)?;
    store.write(log.handle, 8, b"xy")?;
    let mut buffer = [9; 3];
    assert_eq!(rt; number_of(store.read(log.handle, 7, &mut buffer)), None);
    assert_eq!(rt; buffer, [0, b'x', b'y']);
    assert_eq!(rt; number_of(store.read(log.handle, 8, &mut buffer)), Some(5));
    assert_eq!(rt; number_of(store.read(log.handle, 10, &mut [])), None);
    assert_eq!(rt; number_of(store.read(log.handle, 11, &mut [])), Some(5));
    assert_eq!(rt; store.withdraw(log.handle)?, false);
    Ok(())
}

// Also where a segment that has ceased left other bytes.
fn bytes_begin_as_zeros<S: SegmentStore>(rt: &impl Abort, store: &mut S) -> Result<(), Fail> {
    let log = store.make(b"log", 2, 7)?;
    store.write(log.handle, 0, b"xy")?;
    assert_eq!(rt; store.withdraw(log.handle)?, false);
    let map = store.make(b"map", 2, 7)?;
    let mut buffer = [9; 2];
    store.read(map.handle, 0, &mut buffer)?;
    assert_eq!(rt; buffer, [0, 0]);
    assert_eq!(rt; store.withdraw(map.handle)?, false);
    Ok(())
}

fn behaves<S: SegmentStore>(rt: &impl Abort, store: &mut S) -> Result<(), Fail> {
    one_segment_fills_it(rt, store)?;
    one_byte_too_many(rt, store);
    denials_have_an_order(rt, store)?;
    a_nameless_segment_takes_room(rt, store)?;
    a_named_segment_takes_room(rt, store)?;
    writes_end_with_the_payload(rt, store)?;
    reads_end_with_the_payload(rt, store)?;
    bytes_begin_as_zeros(rt, store)
}

#[test]
fn a_frame_behaves(rt: HostRuntime) -> Result<(), Fail> {
    behaves(&rt, &mut FrameStore::new(rt.alloc(), 1, 4096)?)
}

#[test]
fn a_page_behaves(rt: HostRuntime) -> Result<(), Fail> {
    behaves(&rt, &mut SpanStore::new(rt.alloc(), 1)?)
}

#[test]
fn a_quota_behaves(rt: HostRuntime) -> Result<(), Fail> {
    // No `?`: the denial hands the store back, which a failure cannot hold.
    let Ok(mut store) = QuotaStore::new(FrameStore::new(rt.alloc(), 3, 8192)?, 4096) else {
        return Err(Fail::new("not empty"));
    };
    behaves(&rt, &mut store)
}

#[test]
fn frames_have_a_good_shape(rt: HostRuntime) {
    let heap = rt.alloc();
    assert!(rt; FrameStore::new(heap, 0, 4096).is_err());
    assert!(rt; FrameStore::new(heap, 321, 4096).is_err());
    assert!(rt; FrameStore::new(heap, 1, 0).is_err());
    assert!(rt; FrameStore::new(heap, 1, 4097).is_err());
    assert!(rt; FrameStore::new(heap, 2, 4611686018427387904).is_err());
    assert!(rt; FrameStore::new(heap, 320, 4096).is_ok());
}

#[test]
fn pages_have_a_good_number(rt: HostRuntime) {
    assert!(rt; SpanStore::new(rt.alloc(), 0).is_err());
    assert!(rt; SpanStore::new(rt.alloc(), 1_048_577).is_err());
    assert!(rt; SpanStore::new(rt.alloc(), 2).is_ok());
}

#[test]
fn the_first_free_frame_is_taken(rt: HostRuntime) -> Result<(), Fail> {
    let mut store = FrameStore::new(rt.alloc(), 2, 8192)?;
    let one = store.make(b"one", 1, 7)?;
    let two = store.make(b"two", 8192, 8)?;
    assert_eq!(rt; two.address, 8192);
    assert_eq!(rt; number_of(store.make(b"three", 1, 7)), Some(26));
    assert_eq!(rt; store.withdraw(one.handle)?, false);
    assert_eq!(rt; store.make(b"three", 8192, 7)?.address, 0);
    Ok(())
}

#[test]
fn the_first_free_pages_are_taken(rt: HostRuntime) -> Result<(), Fail> {
    let mut store = SpanStore::new(rt.alloc(), 4)?;
    let one = store.make(b"one", 4096, 7)?;
    let two = store.make(b"two", 4097, 7)?;
    assert_eq!(rt; two.address, 4096);
    assert!(rt; store.has_room(4096) && !store.has_room(4097));
    assert_eq!(rt; store.withdraw(one.handle)?, false);
    assert!(rt; !store.has_room(4097));
    assert_eq!(rt; store.make(b"three", 1, 7)?.address, 0);
    assert_eq!(rt; store.make(b"four", 1, 7)?.address, 12288);
    Ok(())
}

#[test]
fn pages_have_320_handles(rt: HostRuntime) -> Result<(), Fail> {
    let mut store = SpanStore::new(rt.alloc(), 321)?;
    for i in 0..20u8 {
        for j in 0..16u8 {
            store.make(&[i, j], 4096, 7)?;
        }
    }
    assert!(rt; !store.has_room(1));
    Ok(())
}

#[test]
fn a_quota_is_met_exactly(rt: HostRuntime) -> Result<(), Fail> {
    let Ok(mut store) = QuotaStore::new(FrameStore::new(rt.alloc(), 4, 4096)?, 100) else {
        return Err(Fail::new("not empty"));
    };
    let log = store.make(b"log", 60, 7)?;
    assert!(rt; store.has_room(40) && !store.has_room(41));
    assert_eq!(rt; number_of(store.make(b"map", 41, 7)), Some(26));
    store.make(b"map", 40, 7)?;
    assert!(rt; store.has_room(0) && !store.has_room(1));
    assert_eq!(rt; store.withdraw(log.handle)?, false);
    assert!(rt; store.has_room(60) && !store.has_room(61));
    Ok(())
}

#[test]
fn a_store_that_is_not_empty_comes_back(rt: HostRuntime) -> Result<(), Fail> {
    let mut below = SpanStore::new(rt.alloc(), 1)?;
    let log = below.make(b"log", 1, 7)?;
    let Err(refused) = QuotaStore::new(below, 100) else {
        return Err(Fail::new("empty"));
    };
    assert_eq!(rt; refused.number(), 6);
    assert_eq!(rt; refused.store.payload_size(log.handle), Some(1));
    Ok(())
}
