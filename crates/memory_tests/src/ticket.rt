use crate::memories::{frames, holdings, layout, memory, number_of};
use resizable_shared_memory::claim::Claim;
use resizable_shared_memory::memory::DynamicMemory;
use shared_memory::SegmentStore;
use shm_allocator::pool_allocator::PoolAllocator;
use shm_allocator::{AllocationStrategy, ShmAllocator};
use std::test::Fail;

#[test]
fn a_second_return_is_denied(rt: HostRuntime) -> Result<(), Fail> {
    let mut store = frames(rt.alloc(), 4)?;
    let builder = holdings(layout(24, 8), 2, AllocationStrategy::Static);
    let mut memory: DynamicMemory<PoolAllocator> = memory(builder, &mut store)?;
    let first = memory.allocate(&mut store, layout(24, 8))?;
    let second = memory.allocate(&mut store, layout(24, 8))?;
    assert_eq!(rt; first.claim.offset.as_value(), 0);
    assert_eq!(rt; second.claim.offset.as_value(), 6144);
    assert_eq!(rt; second.address.wrapping_sub(first.address), 24);
    memory.deallocate(&mut store, first.claim)?;
    let third = memory.allocate(&mut store, layout(24, 8))?;
    assert_eq!(rt; third.claim.offset.as_value(), 0);
    assert_eq!(rt; third.claim.grant, 3);
    let again = memory.deallocate(&mut store, first.claim);
    assert_eq!(rt; number_of(again), Some(11));
    Ok(())
}

#[test]
fn only_the_holder_writes(rt: HostRuntime) -> Result<(), Fail> {
    let mut store = frames(rt.alloc(), 4)?;
    let builder = holdings(layout(24, 8), 2, AllocationStrategy::Static);
    let mut memory: DynamicMemory<PoolAllocator> = memory(builder, &mut store)?;
    let chunk = memory.allocate(&mut store, layout(20, 8))?;
    memory.write(&mut store, chunk.claim, 18, b"ok")?;
    let past = memory.write(&mut store, chunk.claim, 19, b"ok");
    assert_eq!(rt; number_of(past), Some(4));
    let guessed = Claim {
        offset: chunk.claim.offset,
        grant: 2,
    };
    let other = memory.write(&mut store, guessed, 0, b"ok");
    assert_eq!(rt; number_of(other), Some(11));
    let mut written = [0; 2];
    store.read(1, 18, &mut written)?;
    assert_eq!(rt; &written, b"ok");
    Ok(())
}
