use crate::memories::{frames, holdings, layout, memory, number_of};
use pointer_offset::SegmentId;
use resizable_shared_memory::memory::DynamicMemory;
use shared_memory::SegmentStore;
use shm_allocator::bump_allocator::BumpAllocator;
use shm_allocator::pool_allocator::PoolAllocator;
use shm_allocator::{AllocationStrategy, BucketAllocator, ShmAllocator};
use std::test::Fail;

#[test]
fn a_full_pool_grows(rt: HostRuntime) -> Result<(), Fail> {
    let mut store = frames(rt.alloc(), 4)?;
    let builder = holdings(layout(24, 8), 2, AllocationStrategy::BestFit);
    let mut memory: DynamicMemory<PoolAllocator> = memory(builder, &mut store)?;
    let first = memory.allocate(&mut store, layout(24, 8))?;
    let second = memory.allocate(&mut store, layout(24, 8))?;
    let third = memory.allocate(&mut store, layout(24, 8))?;
    assert_eq!(rt; third.claim.offset.as_value(), 1);
    assert_eq!(rt; store.payload_size(2), Some(72));
    assert_eq!(rt; memory.bucket_size(SegmentId::new(1)), Ok(24));
    assert_eq!(rt; memory.number_of_active_segments(), 2);
    memory.deallocate(&mut store, first.claim)?;
    assert_eq!(rt; memory.number_of_active_segments(), 2);
    memory.deallocate(&mut store, second.claim)?;
    assert_eq!(rt; memory.number_of_active_segments(), 1);
    assert!(rt; memory.bucket_size(SegmentId::new(0)).is_err());
    Ok(())
}

#[test]
fn a_static_pool_stays(rt: HostRuntime) -> Result<(), Fail> {
    let mut store = frames(rt.alloc(), 4)?;
    let builder = holdings(layout(24, 8), 1, AllocationStrategy::Static);
    let mut memory: DynamicMemory<PoolAllocator> = memory(builder, &mut store)?;
    assert_eq!(rt; number_of(memory.allocate(&mut store, layout(24, 8))), None);
    assert_eq!(rt;
        number_of(memory.allocate(&mut store, layout(24, 8))),
        Some(20)
    );
    assert_eq!(rt;
        number_of(memory.allocate(&mut store, layout(0, 8))),
        Some(1)
    );
    Ok(())
}

// No growth helps a bump allocator with that alignment, so the ids run out.
#[test]
fn ids_run_out(rt: HostRuntime) -> Result<(), Fail> {
    let mut store = frames(rt.alloc(), 3)?;
    let builder = holdings(layout(1, 1), 1, AllocationStrategy::BestFit);
    let mut memory: DynamicMemory<BumpAllocator> = memory(builder, &mut store)?;
    assert_eq!(rt;
        number_of(memory.allocate(&mut store, layout(1, 16))),
        Some(23)
    );
    assert_eq!(rt; memory.number_of_active_segments(), 1);
    assert_eq!(rt;
        number_of(memory.allocate(&mut store, layout(1, 16))),
        Some(23)
    );
    let last = memory.allocate(&mut store, layout(1, 1))?;
    assert_eq!(rt; last.claim.offset.segment_id().value(), 255);
    Ok(())
}

#[test]
fn no_room_ends_a_growth(rt: HostRuntime) -> Result<(), Fail> {
    let mut store = frames(rt.alloc(), 2)?;
    let builder = holdings(layout(24, 8), 1, AllocationStrategy::PowerOfTwo);
    let mut memory: DynamicMemory<PoolAllocator> = memory(builder, &mut store)?;
    assert_eq!(rt; number_of(memory.allocate(&mut store, layout(24, 8))), None);
    assert_eq!(rt;
        number_of(memory.allocate(&mut store, layout(24, 8))),
        Some(26)
    );
    assert_eq!(rt; memory.number_of_active_segments(), 1);
    Ok(())
}
