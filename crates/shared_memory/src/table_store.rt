ghost use Rattle.shared_memory.specs.Tables.{memory, extents};

use crate::placing::Placing;
use crate::table::SegmentTable;

mod calls;

// A store that owns its memory. Where a new segment lies in it is for `P` to say.
#[derive(Drop)]
pub struct TableStore<P: Placing> {
    pub(crate) table: SegmentTable,
    pub(crate) placing: P,
    ghost laid: { ∥ P.lays placing (extents table) (memory table) ∥₁ },
}
