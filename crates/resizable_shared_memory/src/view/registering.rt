// Ported from src/resizable_shared_memory/dynamic.rs of crate iceoryx2-cal 0.9.3; see NOTICE.

ghost use Rattle.pointer_offset.specs.Packing.{id_of};
ghost use Rattle.resizable_shared_memory.specs.Viewer.{as_open, Leaving, Registers, seen};
ghost use Rattle.shared_memory.specs.Meaning.{Store};
ghost use Rattle.std.specs.Prelude.{◌≡◌, Some, None};

use super::fault::RegisterError;
use super::opening::open_for;
use super::{DynamicView, OpenView};
use crate::table::Place;
use pointer_offset::PointerOffset;
use shared_memory::SegmentStore;

impl DynamicView {
    // Registers a place in the memory and answers its address. Its segment is mapped first if it is not.
    pub fn register<S: SegmentStore>(
        &mut self,
        store: &mut S,
        offset: PointerOffset,
    ) -> Result<u64, RegisterError>
        ensures { Registers offset.0 self.old (S.SegmentStore.means store.old) result self.new (S.SegmentStore.means store.new) }
    {
        match &mut self.open {
            Some(view) => view.register(store, offset),
            None => Err(RegisterError::ViewerClosed),
        }
    }
}

impl OpenView {
    fn register<S: SegmentStore>(
        &mut self,
        store: &mut S,
        offset: PointerOffset,
    ) -> Result<u64, RegisterError>
        ensures { Registers offset.0 (as_open self.old) (S.SegmentStore.means store.old) result (as_open self.new) (S.SegmentStore.means store.new) }
    {
        match self.table.get(offset.segment_id()) {
            Some(place) => self.add(place, offset),
            None => self.map(store, offset),
        }
    }

    // Counts one registration more at a mapped place.
    fn add(&mut self, place: Place, offset: PointerOffset) -> Result<u64, RegisterError>
        requires { seen self.old (id_of offset.0) ≡ Some place }
        ensures { (s : Store) → Registers offset.0 (as_open self.old) s result (as_open self.new) s }
    {
        if place.count == u32::MAX {
            return Err(RegisterError::RegistrationsFull);
        }
        let counted = place.with_count(place.count + 1);
        self.table.put(offset.segment_id(), Some(counted));
        Ok(place.address + offset.offset() as u64)
    }

    // Opens the segment of a first registration, which becomes the current one.
    fn map<S: SegmentStore>(
        &mut self,
        store: &mut S,
        offset: PointerOffset,
    ) -> Result<u64, RegisterError>
        requires { seen self.old (id_of offset.0) ≡ None }
        ensures { Registers offset.0 (as_open self.old) (S.SegmentStore.means store.old) result (as_open self.new) (S.SegmentStore.means store.new) }
    {
        let id = offset.segment_id();
        let name = self.record.base.segment(id);
        let opened = open_for(store, name.as_bytes(), self.record.allocator_id)?;
        self.leave(store);
        self.table.put(id, Some(Place::of(opened, 0).with_count(1)));
        self.current = Some(id);
        Ok(opened.address + offset.offset() as u64)
    }

    // Closes the current segment if nothing is registered in it.
    fn leave<S: SegmentStore>(&mut self, store: &mut S)
        ensures { Leaving self.old (S.SegmentStore.means store.old) self.new (S.SegmentStore.means store.new) }
    {
        let Some(id) = self.current else {
            return;
        };
        let place = self.table.mapped(id);
        if place.count > 0 {
            return;
        }
        let _ = store.close(place.handle);
        self.current = None;
        self.table.put(id, None);
    }
}
