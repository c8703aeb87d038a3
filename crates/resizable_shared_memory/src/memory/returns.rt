// Ported from src/resizable_shared_memory/dynamic.rs of crate iceoryx2-cal 0.9.3; see NOTICE.

ghost use Rattle.resizable_shared_memory.specs.Memory.{Deallocates};

use super::DynamicMemory;
use crate::claim::Claim;
use shared_memory::SegmentStore;
use shm_allocator::{NotHeld, ShmAllocator};

impl<A: ShmAllocator> DynamicMemory<A> {
    // Takes a chunk back. Only the allocator of the current segment is still there to be told.
    pub fn deallocate<S: SegmentStore>(
        &mut self,
        store: &mut S,
        claim: Claim,
    ) -> Result<(), NotHeld>
        ensures { Deallocates A.ShmAllocator.means claim.offset.0 claim.grant self.old (S.SegmentStore.means store.old) result self.new (S.SegmentStore.means store.new) }
    {
        let held = self.tables.release(store, claim).ok_or(NotHeld)?;
        if held.segment == self.tables.current {
            let _ = self.allocator.deallocate(held.start, held.size);
        }
        Ok(())
    }
}
