use shared_memory::name::BaseName;
use shared_memory::opened::Opened;
use shm_allocator::AllocationStrategy;

// What a creation made. The memory is yet to be made of it.
#[derive(Drop)]
pub struct CreationRecord<C> {
    pub(crate) base: BaseName,
    pub(crate) strategy: AllocationStrategy,
    pub(crate) management: u16,
    pub(crate) segment: Opened,
    pub(crate) payload_size: u32,
    pub(crate) config: C,
}
