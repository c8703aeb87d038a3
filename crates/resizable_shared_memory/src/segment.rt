// Ported from src/resizable_shared_memory/dynamic.rs of crate iceoryx2-cal 0.9.3; see NOTICE.

ghost use Rattle.resizable_shared_memory.specs.Segments.{MakesSegment};
ghost use Rattle.shared_memory.specs.Names.{written};

use shared_memory::SegmentStore;
use shared_memory::fault::SharedMemoryCreateError;
use shared_memory::name::SegmentName;
use shared_memory::opened::Opened;
use shm_allocator::{SharedMemorySetupHint, ShmAllocator};

// Makes a segment for an allocator that is to be set up from a hint.
pub(crate) fn make_segment<A: ShmAllocator, S: SegmentStore>(
    store: &mut S,
    name: &SegmentName,
    hint: SharedMemorySetupHint<A::Configuration>,
) -> Result<Opened, SharedMemoryCreateError>
    ensures { MakesSegment A.ShmAllocator.means (S.SegmentStore.means store.old) (written name.now) hint result (S.SegmentStore.means store.new) }
{
    if hint.payload_size == 0 {
        return Err(SharedMemoryCreateError::SizeIsZero);
    }
    if store.is_named(name.as_bytes()) {
        return Err(SharedMemoryCreateError::AlreadyExists);
    }
    if hint.payload_size > u32::MAX as u128 {
        return Err(SharedMemoryCreateError::InternalError);
    }
    let payload = hint.payload_size as u32;
    if !A::can_set_up(hint.config, payload) {
        return Err(SharedMemoryCreateError::InternalError);
    }
    store.make(name.as_bytes(), payload as u64, A::unique_id())
}
