ghost use Rattle.resizable_shared_memory.specs.Memory.{Ends};

use super::DynamicMemory;
use shared_memory::SegmentStore;
use shm_allocator::ShmAllocator;

impl<A: ShmAllocator> DynamicMemory<A> {
    // Withdraws every segment, the management segment last. Handles that the store no longer knows are passed over.
    // Inlined, since a call copies the whole memory.
    #[inline]
    pub fn end<S: SegmentStore>(self, store: &mut S)
        ensures { Ends self (S.SegmentStore.means store.old) (S.SegmentStore.means store.new) }
    {
        let handles = self.tables.table.handles();
        for handle in handles.as_slice() {
            let _ = store.withdraw(*handle);
        }
        let _ = store.withdraw(self.tables.management);
    }
}
