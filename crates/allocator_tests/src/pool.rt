use crate::layouts::layout;
use shm_allocator::layout::Layout;
use shm_allocator::pool_allocator::{Config, PoolAllocator};
use shm_allocator::{AllocationStrategy, BucketAllocator, ShmAllocationError, ShmAllocator};
use std::test::Fail;

fn config(size: u64, align: u64) -> Config {
    Config {
        bucket_layout: Layout { size, align },
    }
}

fn pool(size: u64, align: u64, payload: u32) -> PoolAllocator {
    PoolAllocator::set_up(config(size, align), payload)
}

#[test]
fn exactly_full(rt: HostRuntime) -> Result<(), Fail> {
    let mut a = pool(5, 4, 16);
    assert_eq!(rt; a.bucket_size(), 8);
    assert_eq!(rt; a.allocate(layout(8, 4)?), Ok(0));
    assert_eq!(rt; a.allocate(layout(1, 1)?), Ok(8));
    assert_eq!(rt;
        a.allocate(layout(1, 1)?),
        Err(ShmAllocationError::OutOfMemory)
    );
    Ok(())
}

#[test]
fn one_short(rt: HostRuntime) -> Result<(), Fail> {
    let mut a = pool(5, 4, 15);
    assert_eq!(rt; a.number_of_buckets(), 1);
    assert_eq!(rt; a.allocate(layout(5, 4)?), Ok(0));
    assert_eq!(rt;
        a.allocate(layout(5, 4)?),
        Err(ShmAllocationError::OutOfMemory)
    );
    Ok(())
}

// Alignment comes before size, and size before what is free.
#[test]
fn refusals_in_order(rt: HostRuntime) -> Result<(), Fail> {
    let mut a = pool(8, 8, 8);
    assert_eq!(rt;
        a.allocate(layout(9, 16)?),
        Err(ShmAllocationError::ExceedsMaxSupportedAlignment)
    );
    assert_eq!(rt; a.allocate(layout(8, 8)?), Ok(0));
    assert_eq!(rt;
        a.allocate(layout(9, 8)?),
        Err(ShmAllocationError::SizeTooLarge)
    );
    assert_eq!(rt;
        a.allocate(layout(8, 8)?),
        Err(ShmAllocationError::OutOfMemory)
    );
    Ok(())
}

#[test]
fn the_limit_of_buckets(rt: HostRuntime) {
    assert!(rt; PoolAllocator::can_set_up(config(8, 8), 8192));
    assert_eq!(rt; pool(8, 8, 8192).number_of_buckets(), 1024);
    assert!(rt; PoolAllocator::can_set_up(config(8, 8), 8199));
    assert!(rt; !PoolAllocator::can_set_up(config(8, 8), 8200));
    assert!(rt; PoolAllocator::can_set_up(config(4096, 4096), 4096));
    assert!(rt; !PoolAllocator::can_set_up(config(8192, 8192), 8192));
    assert!(rt; !PoolAllocator::can_set_up(config(8, 3), 8));
}

// What cannot be set up gives no start.
#[test]
fn impossible_pool(rt: HostRuntime) -> Result<(), Fail> {
    let mut a = pool(8, 8, 8200);
    assert_eq!(rt; a.number_of_buckets(), 0);
    assert_eq!(rt; a.bucket_size(), 1);
    assert_eq!(rt;
        a.allocate(layout(1, 1)?),
        Err(ShmAllocationError::OutOfMemory)
    );
    Ok(())
}

#[test]
fn returns(rt: HostRuntime) -> Result<(), Fail> {
    let mut a = pool(24, 8, 48);
    assert_eq!(rt; a.allocate(layout(20, 8)?), Ok(0));
    assert_eq!(rt; a.allocate(layout(24, 8)?), Ok(24));
    assert!(rt; a.deallocate(8, 20).is_err());
    assert!(rt; a.deallocate(0, 25).is_err());
    assert!(rt; a.deallocate(0, 0).is_err());
    assert!(rt; a.deallocate(48, 24).is_err());
    assert!(rt; a.deallocate(0, 20).is_ok());
    assert!(rt; a.deallocate(0, 20).is_err());
    assert_eq!(rt; a.allocate(layout(24, 8)?), Ok(0));
    Ok(())
}

// What came back last goes out first.
#[test]
fn returned_at_the_front(rt: HostRuntime) -> Result<(), Fail> {
    let mut a = pool(1, 1, 3);
    let one = layout(1, 1)?;
    assert_eq!(rt; a.allocate(one), Ok(0));
    assert_eq!(rt; a.allocate(one), Ok(1));
    assert!(rt; a.deallocate(0, 1).is_ok());
    assert!(rt; a.deallocate(1, 1).is_ok());
    assert_eq!(rt; a.allocate(one), Ok(1));
    assert_eq!(rt; a.allocate(one), Ok(0));
    assert_eq!(rt; a.allocate(one), Ok(2));
    Ok(())
}

#[test]
fn hints(rt: HostRuntime) -> Result<(), Fail> {
    let mut a = pool(24, 8, 48);
    let same = layout(24, 8)?;
    let larger = layout(40, 16)?;
    assert_eq!(rt; a.allocate(same), Ok(0));
    assert_eq!(rt;
        a.resize_hint(larger, AllocationStrategy::BestFit)
            .payload_size,
        96
    );
    assert_eq!(rt;
        a.resize_hint(larger, AllocationStrategy::PowerOfTwo)
            .payload_size,
        128
    );
    assert_eq!(rt;
        a.resize_hint(larger, AllocationStrategy::Static)
            .payload_size,
        48
    );
    assert_eq!(rt; a.allocate(same), Ok(24));
    assert_eq!(rt;
        a.resize_hint(same, AllocationStrategy::BestFit)
            .payload_size,
        72
    );
    assert_eq!(rt;
        a.resize_hint(same, AllocationStrategy::PowerOfTwo)
            .payload_size,
        96
    );
    assert_eq!(rt;
        PoolAllocator::initial_setup_hint(layout(5, 4)?, 1).payload_size,
        8
    );
    Ok(())
}
