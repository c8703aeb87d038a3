use crate::layouts::layout;
use shm_allocator::bump_allocator::{BumpAllocator, Config};
use shm_allocator::{AllocationStrategy, ShmAllocationError, ShmAllocator};
use std::test::Fail;

fn bump(payload: u32) -> BumpAllocator {
    BumpAllocator::set_up(Config {}, payload)
}

#[test]
fn exactly_full(rt: HostRuntime) -> Result<(), Fail> {
    let mut a = bump(16);
    assert_eq!(rt; a.allocate(layout(9, 1)?), Ok(0));
    assert_eq!(rt; a.allocate(layout(7, 1)?), Ok(9));
    assert_eq!(rt;
        a.allocate(layout(1, 1)?),
        Err(ShmAllocationError::OutOfMemory)
    );
    Ok(())
}

#[test]
fn one_short(rt: HostRuntime) -> Result<(), Fail> {
    let mut a = bump(15);
    assert_eq!(rt; a.allocate(layout(9, 1)?), Ok(0));
    assert_eq!(rt;
        a.allocate(layout(7, 1)?),
        Err(ShmAllocationError::OutOfMemory)
    );
    assert_eq!(rt; a.allocate(layout(6, 1)?), Ok(9));
    Ok(())
}

#[test]
fn alignments(rt: HostRuntime) -> Result<(), Fail> {
    let mut a = bump(100);
    assert_eq!(rt; a.allocate(layout(1, 1)?), Ok(0));
    assert_eq!(rt; a.allocate(layout(1, 8)?), Ok(8));
    assert_eq!(rt;
        a.allocate(layout(1, 16)?),
        Err(ShmAllocationError::ExceedsMaxSupportedAlignment)
    );
    assert_eq!(rt; a.allocate(layout(1, 2)?), Ok(10));
    Ok(())
}

#[test]
fn returns_move_nothing(rt: HostRuntime) -> Result<(), Fail> {
    let mut a = bump(8);
    assert_eq!(rt; a.allocate(layout(5, 1)?), Ok(0));
    assert!(rt; a.deallocate(0, 5).is_ok());
    assert!(rt; a.deallocate(0, 5).is_ok());
    assert!(rt; a.deallocate(0, 6).is_err());
    assert!(rt; a.deallocate(7, 0).is_ok());
    assert_eq!(rt;
        a.allocate(layout(5, 1)?),
        Err(ShmAllocationError::OutOfMemory)
    );
    Ok(())
}

#[test]
fn hints(rt: HostRuntime) -> Result<(), Fail> {
    let mut a = bump(16);
    assert_eq!(rt; a.allocate(layout(9, 1)?), Ok(0));
    let six = layout(6, 1)?;
    let seven = layout(7, 1)?;
    assert_eq!(rt;
        a.resize_hint(six, AllocationStrategy::BestFit).payload_size,
        16
    );
    assert_eq!(rt;
        a.resize_hint(seven, AllocationStrategy::BestFit)
            .payload_size,
        23
    );
    assert_eq!(rt;
        a.resize_hint(seven, AllocationStrategy::PowerOfTwo)
            .payload_size,
        32
    );
    assert_eq!(rt;
        a.resize_hint(seven, AllocationStrategy::Static)
            .payload_size,
        16
    );
    assert_eq!(rt;
        BumpAllocator::initial_setup_hint(layout(5, 4)?, 3).payload_size,
        24
    );
    Ok(())
}
