// Ported from src/resizable_shared_memory/dynamic.rs of crate iceoryx2-cal 0.9.3; see NOTICE.

ghost use Rattle.resizable_shared_memory.specs.Viewer.{TellsActive};

use super::DynamicView;
use super::fault::ViewerClosed;

impl DynamicView {
    // How many segments are mapped, the management segment aside.
    pub fn number_of_active_segments(&self) -> Result<usize, ViewerClosed>
        ensures { TellsActive self.now result }
    {
        match &self.open {
            Some(view) => Ok(view.table.number_mapped()),
            None => Err(ViewerClosed),
        }
    }
}
