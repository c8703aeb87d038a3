use pointer_offset::Denial;
use resizable_shared_memory::builder::DynamicMemoryBuilder;
use resizable_shared_memory::memory::DynamicMemory;
use shared_memory::frame_store::FrameStore;
use shm_allocator::layout::Layout;
use shm_allocator::{AllocationStrategy, ShmAllocator};
use std::alloc::Global;
use std::test::Fail;

pub fn layout(size: u64, align: u64) -> Layout {
    Layout { size, align }
}

// A store that gives the handle 0 to the management segment, and 1, 2 and so on to the others.
pub fn frames(heap: Global, count: usize) -> Result<FrameStore, Fail> {
    Ok(FrameStore::new(heap, count, 4096)?)
}

// The builder of a memory "holdings" for so many chunks of a layout.
pub fn holdings(
    layout: Layout,
    chunks: u64,
    strategy: AllocationStrategy,
) -> DynamicMemoryBuilder<'static> {
    DynamicMemoryBuilder::new(b"holdings")
        .max_chunk_layout_hint(layout)
        .max_number_of_chunks_hint(chunks)
        .allocation_strategy(strategy)
}

pub fn memory<A: ShmAllocator>(
    builder: DynamicMemoryBuilder<'_>,
    store: &mut FrameStore,
) -> Result<DynamicMemory<A>, Fail> {
    let record = builder.create::<A, FrameStore>(store)?;
    Ok(DynamicMemory::from_record(record))
}

// The number of a denial, if it is one.
pub fn number_of<T: Drop, E: Denial + Drop>(answer: Result<T, E>) -> Option<u8> {
    answer.err().map(|error| error.number())
}
