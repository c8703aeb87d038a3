// Ported from src/resizable_shared_memory/dynamic.rs of crate iceoryx2-cal 0.9.3; see NOTICE.

ghost use Rattle.resizable_shared_memory.specs.Viewer.{as_open, Unregisters};

use super::fault::UnregisterError;
use super::{DynamicView, OpenView};
use pointer_offset::PointerOffset;
use shared_memory::SegmentStore;

impl DynamicView {
    // Undoes a registration. The last one closes the segment, unless it is the current one.
    pub fn unregister<S: SegmentStore>(
        &mut self,
        store: &mut S,
        offset: PointerOffset,
    ) -> Result<(), UnregisterError>
        ensures { Unregisters offset.0 self.old (S.SegmentStore.means store.old) result self.new (S.SegmentStore.means store.new) }
    {
        match &mut self.open {
            Some(view) => view.unregister(store, offset),
            None => Err(UnregisterError::ViewerClosed),
        }
    }
}

impl OpenView {
    fn unregister<S: SegmentStore>(
        &mut self,
        store: &mut S,
        offset: PointerOffset,
    ) -> Result<(), UnregisterError>
        ensures { Unregisters offset.0 (as_open self.old) (S.SegmentStore.means store.old) result (as_open self.new) (S.SegmentStore.means store.new) }
    {
        let id = offset.segment_id();
        let place = self.table.get(id).ok_or(UnregisterError::NotMapped)?;
        if place.count == 0 {
            return Err(UnregisterError::NotRegistered);
        }
        let is_current = self.current == Some(id);
        if place.count > 1 || is_current {
            self.table.put(id, Some(place.with_count(place.count - 1)));
            return Ok(());
        }
        let _ = store.close(place.handle);
        self.table.put(id, None);
        Ok(())
    }
}
