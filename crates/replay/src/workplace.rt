use crate::desk::Desk;
use crate::outcome::{CallError, Done, NotDone};
use crate::shelf::Shelf;
use crate::words::Call;
use shared_memory::frame_store::FrameStore;
use shared_memory::quota_store::QuotaStore;
use shared_memory::span_store::SpanStore;
use shm_allocator::bump_allocator::BumpAllocator;
use shm_allocator::pool_allocator::PoolAllocator;

// What a part of a list works on: an allocator or a store, with the names that the list gives to what it got.
pub trait Workplace: Drop {
    fn carry_out(&mut self, call: Call<'_>) -> Result<Done, CallError>;

    // Prints what stands at the end.
    fn sum_up(&self, rt: &HostRuntime) -> anyhow::Result<()>;
}

// What the latest setup made. One type for all, so that what a line says is not kept.
#[derive(Drop)]
pub enum Current {
    // Before a setup, and after one that failed.
    Nowhere,
    // Its free buckets take five thousand bytes, which the others need not be moved with.
    Pool(Box<Desk<PoolAllocator>>),
    Bump(Desk<BumpAllocator>),
    Frames(Shelf<FrameStore>),
    Span(Shelf<SpanStore>),
    FramesUnderQuota(Shelf<QuotaStore<FrameStore>>),
    SpanUnderQuota(Shelf<QuotaStore<SpanStore>>),
}

impl Workplace for Current {
    fn carry_out(&mut self, call: Call<'_>) -> Result<Done, CallError> {
        match self {
            Current::Nowhere => Err(NotDone::NothingSetUp.into()),
            Current::Pool(desk) => desk.carry_out(call),
            Current::Bump(desk) => desk.carry_out(call),
            Current::Frames(shelf) => shelf.carry_out(call),
            Current::Span(shelf) => shelf.carry_out(call),
            Current::FramesUnderQuota(shelf) => shelf.carry_out(call),
            Current::SpanUnderQuota(shelf) => shelf.carry_out(call),
        }
    }

    fn sum_up(&self, rt: &HostRuntime) -> anyhow::Result<()> {
        match self {
            Current::Nowhere => Ok(()),
            Current::Pool(desk) => desk.sum_up(rt),
            Current::Bump(desk) => desk.sum_up(rt),
            Current::Frames(shelf) => shelf.sum_up(rt),
            Current::Span(shelf) => shelf.sum_up(rt),
            Current::FramesUnderQuota(shelf) => shelf.sum_up(rt),
            Current::SpanUnderQuota(shelf) => shelf.sum_up(rt),
        }
    }
}
