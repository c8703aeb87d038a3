ghost use Rattle.resizable_shared_memory.specs.Creation.{Becomes, Completes};

use super::{DynamicMemory, Tables};
use crate::record::CreationRecord;
use crate::table::Place;
use shm_allocator::ShmAllocator;

impl<A: ShmAllocator> DynamicMemory<A> {
    // The memory that was created.
    pub fn from_record(record: CreationRecord<A::Configuration>) -> DynamicMemory<A>
        ensures becomes { Becomes A.ShmAllocator.means «record» result }
        ensures completes { Completes A.ShmAllocator.means «record» result }
    {
        let allocator = A::set_up(record.config, record.payload_size);
        let first = Place::of(record.segment, allocator.bucket());
        let tables = Tables::new(record.base, record.strategy, record.management, first);
        DynamicMemory { allocator, tables }
    }
}
