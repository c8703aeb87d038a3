use crate::memories::{frames, holdings, layout, memory, number_of};
use resizable_shared_memory::builder::DynamicMemoryBuilder;
use resizable_shared_memory::memory::DynamicMemory;
use shared_memory::SegmentStore;
use shared_memory::frame_store::FrameStore;
use shm_allocator::pool_allocator::PoolAllocator;
use shm_allocator::{AllocationStrategy, ShmAllocator};
use std::test::Fail;

// The number of the denial of a creation, if it is denied.
fn creation(builder: DynamicMemoryBuilder<'_>, store: &mut FrameStore) -> Option<u8> {
    number_of(builder.create::<PoolAllocator, FrameStore>(store))
}

#[test]
fn denials_come_in_order(rt: HostRuntime) -> Result<(), Fail> {
    let mut store = frames(rt.alloc(), 3)?;
    let nameless = DynamicMemoryBuilder::new(b".").max_chunk_layout_hint(layout(0, 1));
    assert_eq!(rt; creation(nameless, &mut store), Some(2));
    let bad = holdings(layout(0, 1), 1, AllocationStrategy::Static);
    assert_eq!(rt; creation(bad, &mut store), Some(1));
    let empty = holdings(layout(1, 1), 0, AllocationStrategy::Static);
    assert_eq!(rt; creation(empty, &mut store), Some(25));
    let large = holdings(layout(4096, 1), 2, AllocationStrategy::Static);
    assert_eq!(rt; creation(large, &mut store), Some(26));
    assert!(rt; store.is_empty());
    let least = DynamicMemoryBuilder::new(b"holdings");
    assert_eq!(rt; creation(least, &mut store), None);
    let again = DynamicMemoryBuilder::new(b"holdings");
    assert_eq!(rt; creation(again, &mut store), Some(24));
    Ok(())
}

#[test]
fn an_ended_memory_leaves_nothing(rt: HostRuntime) -> Result<(), Fail> {
    let mut store = frames(rt.alloc(), 4)?;
    let builder = holdings(layout(24, 8), 1, AllocationStrategy::BestFit);
    let mut memory: DynamicMemory<PoolAllocator> = memory(builder, &mut store)?;
    let _first = memory.allocate(&mut store, layout(24, 8))?;
    let _second = memory.allocate(&mut store, layout(24, 8))?;
    assert_eq!(rt; memory.number_of_active_segments(), 2);
    memory.end(&mut store);
    assert!(rt; store.is_empty());
    Ok(())
}
