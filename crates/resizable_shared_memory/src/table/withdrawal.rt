// Ported from src/resizable_shared_memory/dynamic.rs of crate iceoryx2-cal 0.9.3; see NOTICE.

ghost use Rattle.std.specs.Prelude.{◌≡◌, ◌≤◌, true, is_some};
ghost use Rattle.resizable_shared_memory.specs.Places.{place_of, count_of};
ghost use Rattle.resizable_shared_memory.specs.Withdrawals.{Leaves, Lowers};

use super::Table;
use pointer_offset::SegmentId;
use shared_memory::SegmentStore;

// A store that no longer knows a handle is passed over: what was to be withdrawn is gone.
impl Table {
    // Leaves a mapped place for another. Its segment is withdrawn if it counts nothing.
    pub(crate) fn leave<S: SegmentStore>(&mut self, id: SegmentId, store: &mut S)
        requires { is_some (place_of self.old id.0) ≡ true }
        ensures { Leaves self.old id.0 (S.SegmentStore.means store.old) self.new (S.SegmentStore.means store.new) }
    {
        let place = self.mapped(id);
        if place.count == 0 {
            let _ = store.withdraw(place.handle);
            self.put(id, None);
        }
    }

    // Counts one off a place. Its segment is withdrawn with the last, unless it is the current one.
    pub(crate) fn lower<S: SegmentStore>(
        &mut self,
        id: SegmentId,
        current: SegmentId,
        store: &mut S,
    )
        requires { 1 ≤ count_of (place_of self.old id.0) }
        ensures { Lowers self.old current.0 id.0 (S.SegmentStore.means store.old) self.new (S.SegmentStore.means store.new) }
    {
        let place = self.mapped(id);
        if place.count > 1 || id == current {
            self.put(id, Some(place.with_count(place.count - 1)));
            return;
        }
        let _ = store.withdraw(place.handle);
        self.put(id, None);
    }
}
