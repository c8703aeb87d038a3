ghost use Rattle.std.specs.Prelude.{◌≡◌, ◌%◌, ◌≤◌};

use crate::table_store::TableStore;

mod placing;
mod start;

// A store whose memory is cut into equal frames. A segment lies in one, and its handle is the frame's number.
pub type FrameStore = TableStore<Frames>;

// Frames of so many bytes.
#[derive(Drop)]
pub struct Frames {
    size: usize,
    ghost paged: { (1 ≤ size) × (size % 4096 ≡ 0) },
}
