// Ported from src/resizable_shared_memory/dynamic.rs of crate iceoryx2-cal 0.9.3; see NOTICE.

ghost use Rattle.resizable_shared_memory.specs.Memory.{Grows, MakesRoom};

use super::DynamicMemory;
use crate::fault::ResizableShmAllocationError;
use crate::segment::make_segment;
use crate::table::Place;
use shared_memory::SegmentStore;
use shm_allocator::layout::ValidLayout;
use shm_allocator::{AllocationStrategy, ShmAllocationError, ShmAllocator};

impl<A: ShmAllocator> DynamicMemory<A> {
    // Grows after a refusal, which stands where the strategy forbids to grow.
    pub(super) fn make_room<S: SegmentStore>(
        &mut self,
        store: &mut S,
        layout: ValidLayout,
        refusal: ShmAllocationError,
    ) -> Result<(), ResizableShmAllocationError>
        ensures { MakesRoom A.ShmAllocator.means self.old (S.SegmentStore.means store.old) layout refusal result self.new (S.SegmentStore.means store.new) }
    {
        match self.tables.strategy {
            AllocationStrategy::Static => Err(ResizableShmAllocationError::from(refusal)),
            _ => self.grow(store, layout),
        }
    }

    // Makes the next segment from the allocator's own hint, and makes it current.
    fn grow<S: SegmentStore>(
        &mut self,
        store: &mut S,
        layout: ValidLayout,
    ) -> Result<(), ResizableShmAllocationError>
        ensures { Grows A.ShmAllocator.means self.old (S.SegmentStore.means store.old) layout result self.new (S.SegmentStore.means store.new) }
    {
        let next = self
            .tables
            .current
            .successor()
            .ok_or(ResizableShmAllocationError::MaxReallocationsReached)?;
        let hint = self.allocator.resize_hint(layout, self.tables.strategy);
        let name = self.tables.base.segment(next);
        let opened = make_segment::<A, S>(store, &name, hint)?;
        self.allocator = A::set_up(hint.config, hint.payload_size as u32);
        let place = Place::of(opened, self.allocator.bucket());
        self.tables.advance(next, place, store);
        Ok(())
    }
}
