// Ported from src/resizable_shared_memory/dynamic.rs of crate iceoryx2-cal 0.9.3; see NOTICE.

ghost use Rattle.resizable_shared_memory.specs.Memory.{TellsBucketSize};
ghost use Rattle.resizable_shared_memory.specs.Places.{active};
ghost use Rattle.std.specs.Prelude.{◌≡◌};

use super::DynamicMemory;
use crate::fault::NotMapped;
use pointer_offset::SegmentId;
use shm_allocator::BucketAllocator;

impl<A> DynamicMemory<A> {
    pub fn number_of_active_segments(&self) -> usize
        ensures { result ≡ active self.now.tables.table.places }
    {
        self.tables.table.number_mapped()
    }
}

impl<A: BucketAllocator> DynamicMemory<A> {
    // The size of the buckets of a mapped segment.
    pub fn bucket_size(&self, id: SegmentId) -> Result<u32, NotMapped>
        ensures { TellsBucketSize self.now id.0 result }
    {
        let place = self.tables.table.get(id).ok_or(NotMapped)?;
        Ok(place.bucket_size)
    }
}
