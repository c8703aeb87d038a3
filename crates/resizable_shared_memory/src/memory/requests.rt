// Ported from src/resizable_shared_memory/dynamic.rs of crate iceoryx2-cal 0.9.3; see NOTICE.

ghost use Rattle.std.specs.Prelude.{◌-◌, ◌^◌, ◌<◌, length};
ghost use Rattle.resizable_shared_memory.specs.Memory.{Allocates, Rounds};
ghost use Rattle.resizable_shared_memory.specs.Parts.{chunks, given};

use super::{Chunk, DynamicMemory};
use crate::fault::ResizableShmAllocationError;
use shared_memory::SegmentStore;
use shm_allocator::ShmAllocator;
use shm_allocator::layout::{Layout, ValidLayout};

impl<A: ShmAllocator> DynamicMemory<A> {
    // Takes a chunk, and grows for it as the strategy allows.
    pub fn allocate<S: SegmentStore>(
        &mut self,
        store: &mut S,
        layout: Layout,
    ) -> Result<Chunk, ResizableShmAllocationError>
        ensures { Allocates A.ShmAllocator.means layout self.old (S.SegmentStore.means store.old) result self.new (S.SegmentStore.means store.new) }
    {
        let valid = ValidLayout::try_from(layout)?;
        if self.tables.ledger.is_full() {
            return Err(ResizableShmAllocationError::LedgerFull);
        }
        if self.tables.given == u64::MAX {
            return Err(ResizableShmAllocationError::GrantsSpent);
        }
        self.allocate_in_rounds(store, valid)
    }

    // Asks the current segment's allocator, and makes room between two rounds.
    fn allocate_in_rounds<S: SegmentStore>(
        &mut self,
        store: &mut S,
        layout: ValidLayout,
    ) -> Result<Chunk, ResizableShmAllocationError>
        requires room { length (chunks self.old) < 1024 }
        requires grants { given self.old < 2 ^ 64 - 1 }
        ensures { Rounds A.ShmAllocator.means layout self.old (S.SegmentStore.means store.old) result self.new (S.SegmentStore.means store.new) }
    {
        loop {
            match self.allocator.allocate(layout) {
                Ok(start) => break Ok(self.tables.enter(start, layout.size())),
                Err(refusal) => self.make_room(store, layout, refusal)?,
            }
        }
    }
}
