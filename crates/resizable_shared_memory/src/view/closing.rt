ghost use Rattle.resizable_shared_memory.specs.Closings.{ClosesAll};
ghost use Rattle.resizable_shared_memory.specs.Viewer.{ClosesView, every_map};

use super::fault::ViewCloseError;
use super::{ClosingMark, DynamicView, OpenView};
use shared_memory::SegmentStore;

impl DynamicView {
    // Takes every map of this viewer, the management segment's last, and spends a mark.
    pub fn close<S: SegmentStore>(
        &mut self,
        store: &mut S,
        mark: ClosingMark,
    ) -> Result<(), ViewCloseError>
        ensures { ClosesView self.old (S.SegmentStore.means store.old) result self.new (S.SegmentStore.means store.new) }
    {
        // No `?`: the denial takes the mark with it.
        let Some(view) = &self.open else {
            return Err(ViewCloseError { mark });
        };
        let ClosingMark { spent: _ } = mark;
        view.close(store);
        self.open = None;
        Ok(())
    }
}

impl OpenView {
    fn close<S: SegmentStore>(&self, store: &mut S)
        ensures { ClosesAll (every_map self.now) (S.SegmentStore.means store.old) (S.SegmentStore.means store.new) }
    {
        let handles = self.table.handles();
        for handle in handles.as_slice() {
            let _ = store.close(*handle);
        }
        let _ = store.close(self.record.management);
    }
}
