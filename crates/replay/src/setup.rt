use crate::desk::Desk;
use crate::outcome::{CallError, Done, NotDone};
use crate::shelf::Shelf;
use crate::words::{Kind, Shape};
use crate::workplace::Current;
use shared_memory::SegmentStore;
use shared_memory::fault::StoreError;
use shared_memory::frame_store::FrameStore;
use shared_memory::quota_store::QuotaStore;
use shared_memory::span_store::SpanStore;
use shm_allocator::bump_allocator::BumpAllocator;
use shm_allocator::layout::{Layout, ValidLayout};
use shm_allocator::pool_allocator::PoolAllocator;
use shm_allocator::{ShmAllocator, bump_allocator, pool_allocator};
use std::alloc::Global;

// A workplace with what is told of it, or why there is none.
pub type Begun = Result<(Current, Done), CallError>;

pub fn set_up(heap: Global, kind: Kind) -> Begun {
    match kind {
        Kind::Pool {
            bucket_layout,
            payload,
        } => pool(heap, bucket_layout, payload),
        Kind::Bump { payload } => bump(heap, payload),
        Kind::Store { shape, quota: None } => store(heap, shape),
        Kind::Store {
            shape,
            quota: Some(quota),
        } => store_under_quota(heap, shape, quota),
    }
}

fn pool(heap: Global, bucket_layout: Layout, payload: u64) -> Begun {
    ValidLayout::try_from(bucket_layout).map_err(NotDone::BadLayout)?;
    let config = pool_allocator::Config { bucket_layout };
    let pool = allocator::<PoolAllocator>(config, payload)?;
    let told = Done::Pool {
        buckets: pool.number_of_buckets(),
        size: pool.bucket(),
    };
    let desk = Box::new(heap, Desk::new(heap, pool))?;
    Ok((Current::Pool(desk), told))
}

fn bump(heap: Global, payload: u64) -> Begun {
    let bump = allocator::<BumpAllocator>(bump_allocator::Config {}, payload)?;
    let told = Done::Bump {
        payload: bump.total_space(),
    };
    Ok((Current::Bump(Desk::new(heap, bump)), told))
}

fn allocator<A: ShmAllocator>(config: A::Configuration, payload: u64) -> Result<A, NotDone> {
    let payload = u32::try_from(payload).map_err(|_| NotDone::Impossible)?;
    if !A::can_set_up(config, payload) {
        return Err(NotDone::Impossible);
    }
    Ok(A::set_up(config, payload))
}

fn store(heap: Global, shape: Shape) -> Begun {
    let store = match shape {
        Shape::Frames { count, size } => {
            Current::Frames(Shelf::new(heap, frames(heap, count, size)?))
        }
        Shape::Span { pages } => Current::Span(Shelf::new(heap, span(heap, pages)?)),
    };
    Ok((store, Done::Store))
}

fn store_under_quota(heap: Global, shape: Shape, quota: u64) -> Begun {
    let store = match shape {
        Shape::Frames { count, size } => {
            let store = under_quota(frames(heap, count, size)?, quota)?;
            Current::FramesUnderQuota(Shelf::new(heap, store))
        }
        Shape::Span { pages } => {
            let store = under_quota(span(heap, pages)?, quota)?;
            Current::SpanUnderQuota(Shelf::new(heap, store))
        }
    };
    Ok((store, Done::Store))
}

fn frames(heap: Global, count: u64, size: u64) -> Result<FrameStore, NotDone> {
    FrameStore::new(heap, count as usize, size as usize).map_err(NotDone::NoStore)
}

fn span(heap: Global, pages: u64) -> Result<SpanStore, NotDone> {
    SpanStore::new(heap, pages as usize).map_err(NotDone::NoStore)
}

fn under_quota<S: SegmentStore + Drop>(store: S, quota: u64) -> Result<QuotaStore<S>, NotDone> {
    QuotaStore::new(store, quota).map_err(|_| NotDone::NoStore(StoreError::BadStore))
}
