// Ported from src/resizable_shared_memory/dynamic.rs of crate iceoryx2-cal 0.9.3; see NOTICE.

ghost use Rattle.resizable_shared_memory.specs.Creation.{one_byte, management_hint, MakesFirst, CreatesRecord};
ghost use Rattle.resizable_shared_memory.specs.Segments.{MakesSegment};
ghost use Rattle.shared_memory.specs.Names.{text, management_name};
ghost use Rattle.std.specs.Prelude.{◌≡◌};

use super::DynamicMemoryBuilder;
use crate::fault::ResizableShmCreateError;
use crate::record::CreationRecord;
use crate::segment::make_segment;
use pointer_offset::SegmentId;
use shared_memory::SegmentStore;
use shared_memory::fault::SharedMemoryCreateError;
use shared_memory::name::BaseName;
use shared_memory::opened::Opened;
use shm_allocator::layout::ValidLayout;
use shm_allocator::{SharedMemorySetupHint, ShmAllocator};

fn one_byte() -> ValidLayout
    ensures { result ≡ one_byte }
{
    ValidLayout::least()
}

fn make_management<A: ShmAllocator, S: SegmentStore>(
    store: &mut S,
    base: &BaseName,
) -> Result<Opened, SharedMemoryCreateError>
    ensures { MakesSegment A.ShmAllocator.means (S.SegmentStore.means store.old) (management_name (text base.now)) (management_hint A.ShmAllocator.means) result (S.SegmentStore.means store.new) }
{
    let hint = A::initial_setup_hint(one_byte(), 1);
    make_segment::<A, S>(store, &base.management(), hint)
}

// Makes segment 0, or else undoes the management segment.
fn make_first<A: ShmAllocator, S: SegmentStore>(
    store: &mut S,
    base: &BaseName,
    hint: SharedMemorySetupHint<A::Configuration>,
    management: u16,
) -> Result<Opened, SharedMemoryCreateError>
    ensures { MakesFirst A.ShmAllocator.means (S.SegmentStore.means store.old) (text base.now) hint management result (S.SegmentStore.means store.new) }
{
    let made = make_segment::<A, S>(store, &base.segment(SegmentId::new(0)), hint);
    if made.is_err() {
        let _ = store.withdraw(management);
    }
    made
}

impl DynamicMemoryBuilder<'_> {
    // Makes the management segment and the first segment of a memory.
    pub fn create<A: ShmAllocator, S: SegmentStore>(
        self,
        store: &mut S,
    ) -> Result<CreationRecord<A::Configuration>, ResizableShmCreateError>
        ensures { CreatesRecord A.ShmAllocator.means self.entry.name.now self.entry.layout self.entry.chunks self.entry.strategy (S.SegmentStore.means store.old) result (S.SegmentStore.means store.new) }
    {
        let base = BaseName::new(self.name)?;
        let layout = ValidLayout::try_from(self.layout)?;
        let management = make_management::<A, S>(store, &base)?;
        let hint = A::initial_setup_hint(layout, self.chunks);
        let segment = make_first::<A, S>(store, &base, hint, management.handle)?;
        Ok(CreationRecord {
            base,
            strategy: self.strategy,
            management: management.handle,
            segment,
            payload_size: hint.payload_size as u32,
            config: hint.config,
        })
    }
}
