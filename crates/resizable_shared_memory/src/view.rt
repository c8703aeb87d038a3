// Ported from src/resizable_shared_memory/dynamic.rs of crate iceoryx2-cal 0.9.3; see NOTICE.

ghost use Rattle.resizable_shared_memory.specs.CurrentPlaces.{current_mapped};
ghost use Rattle.std.specs.Prelude.{◌≡◌, true};

use crate::table::Table;
use pointer_offset::SegmentId;
use shared_memory::name::BaseName;

mod closing;
mod counting;
pub mod fault;
mod opening;
mod registering;
mod unregistering;

// Reads a memory that another party made. It maps a segment with the first registration in it.
#[derive(Drop)]
pub struct DynamicView {
    // None once it was closed.
    open: Option<OpenView>,
}

// A viewer that was not closed yet.
#[derive(Drop)]
struct OpenView {
    record: ViewRecord,
    table: Table,
    current: Option<SegmentId>,
    ghost mapped: { current_mapped table current ≡ true },
}

// What an opened viewer is made from.
#[derive(Drop)]
pub struct ViewRecord {
    base: BaseName,
    allocator_id: u8,
    management: u16,
}

// Comes with every opened viewer. Since it is not `Drop`, who opens a viewer must close one.
pub struct ClosingMark {
    spent: (),
}
