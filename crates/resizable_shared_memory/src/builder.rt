// Ported from src/resizable_shared_memory/dynamic.rs of crate iceoryx2-cal 0.9.3; see NOTICE.

ghost use Rattle.shm_allocator.specs.declared.AllocationStrategy.TheVariants.{Static};
ghost use Rattle.std.specs.Prelude.{◌≡◌};

use shm_allocator::AllocationStrategy;
use shm_allocator::layout::Layout;

mod creating;

// What a memory is to be created with. Each call uses the builder up.
#[derive(Drop)]
pub struct DynamicMemoryBuilder<'a> {
    name: &'a [u8],
    layout: Layout,
    chunks: u64,
    strategy: AllocationStrategy,
}

impl<'a> DynamicMemoryBuilder<'a> {
    pub fn new(name: &'a [u8]) -> DynamicMemoryBuilder<'a>
        ensures { (result.name.now ≡ name.now) × (result.layout ≡ record { size = 1; align = 1 }) × (result.chunks ≡ 1) × (result.strategy ≡ Static) }
    {
        DynamicMemoryBuilder {
            name,
            layout: Layout { size: 1, align: 1 },
            chunks: 1,
            strategy: AllocationStrategy::default(),
        }
    }

    // The largest layout that is expected.
    pub fn max_chunk_layout_hint(self, value: Layout) -> DynamicMemoryBuilder<'a>
        ensures { (result.name.now ≡ self.entry.name.now) × (result.layout ≡ value) × (result.chunks ≡ self.entry.chunks) × (result.strategy ≡ self.entry.strategy) }
    {
        DynamicMemoryBuilder {
            layout: value,
            ..self
        }
    }

    // The largest number of chunks that is expected to be held at once.
    pub fn max_number_of_chunks_hint(self, value: u64) -> DynamicMemoryBuilder<'a>
        ensures { (result.name.now ≡ self.entry.name.now) × (result.layout ≡ self.entry.layout) × (result.chunks ≡ value) × (result.strategy ≡ self.entry.strategy) }
    {
        DynamicMemoryBuilder {
            chunks: value,
            ..self
        }
    }

    pub fn allocation_strategy(self, value: AllocationStrategy) -> DynamicMemoryBuilder<'a>
        ensures { (result.name.now ≡ self.entry.name.now) × (result.layout ≡ self.entry.layout) × (result.chunks ≡ self.entry.chunks) × (result.strategy ≡ value) }
    {
        DynamicMemoryBuilder {
            strategy: value,
            ..self
        }
    }
}
