// Ported from src/resizable_shared_memory/dynamic.rs of crate iceoryx2-cal 0.9.3; see NOTICE.

ghost use Rattle.resizable_shared_memory.specs.Viewer.{OpensFor, OpensView, Shows};

use super::fault::{OpenForError, ViewOpenError};
use super::{ClosingMark, DynamicView, OpenView, ViewRecord};
use crate::table::Table;
use shared_memory::SegmentStore;
use shared_memory::name::BaseName;
use shared_memory::opened::Opened;
use shm_allocator::ShmAllocator;

// Opens the segment of a name, and closes it again unless it was made for this allocator.
pub(super) fn open_for<S: SegmentStore>(
    store: &mut S,
    name: &[u8],
    allocator_id: u8,
) -> Result<Opened, OpenForError>
    ensures { OpensFor (S.SegmentStore.means store.old) name.now allocator_id result (S.SegmentStore.means store.new) }
{
    let opened = store.open(name)?;
    if opened.allocator_id != allocator_id {
        let _ = store.close(opened.handle);
        return Err(OpenForError::WrongAllocatorSelected);
    }
    Ok(opened)
}

impl DynamicView {
    // Opens the management segment of a memory whose allocator is of the kind `A`.
    pub fn open<A: ShmAllocator, S: SegmentStore>(
        store: &mut S,
        name: &[u8],
    ) -> Result<(ClosingMark, ViewRecord), ViewOpenError>
        ensures { OpensView name.now A.ShmAllocator.means.id (S.SegmentStore.means store.old) result (S.SegmentStore.means store.new) }
    {
        let base = BaseName::new(name)?;
        let allocator_id = A::unique_id();
        let opened = open_for(store, base.management().as_bytes(), allocator_id)?;
        let record = ViewRecord {
            base,
            allocator_id,
            management: opened.handle,
        };
        Ok((ClosingMark { spent: () }, record))
    }
}

impl ViewRecord {
    pub fn into_view(self) -> DynamicView
        ensures { Shows self result }
    {
        let view = OpenView {
            record: self,
            table: Table::empty(),
            current: None,
        };
        DynamicView { open: Some(view) }
    }
}
