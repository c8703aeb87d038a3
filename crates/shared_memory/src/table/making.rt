ghost use Rattle.std.specs.Prelude.{◌≡◌, ◌^◌, ◌<◌, ◌≤◌, length, replicate, IfOk, Some, None};
ghost use Rattle.shared_memory.specs.Extents.{Rule, occupied, FreePlace, StillLeave};
ghost use Rattle.shared_memory.specs.Meaning.{GoodName, Named, Made};
ghost use Rattle.shared_memory.specs.Tables.{memory, extents, under, Relaid};

use super::stored_name::StoredName;
use super::{Place, SegmentTable, Slot};
use crate::opened::Opened;
use std::alloc::{AllocError, Global};

fn free_handles(heap: Global, handles: usize) -> Result<Vec<Option<Slot>>, AllocError>
    ensures { IfOk result (λ v. v.items ≡ replicate handles None) }
{
    vec![in heap; None; handles]
}

fn zeros(heap: Global, size: usize) -> Result<Vec<u8>, AllocError>
    ensures { IfOk result (λ v. length v.items ≡ size) }
{
    vec![in heap; 0; size]
}

impl SegmentTable {
    // A table in which nothing stands.
    pub(crate) fn new(heap: Global, handles: usize, size: usize) -> Result<SegmentTable, AllocError>
        requires { (handles ≤ 320) × (size < 2 ^ 63) }
        ensures { IfOk result (λ t. (extents t ≡ replicate handles None) × (memory t ≡ size)) }
    {
        let slots = free_handles(heap, handles)?;
        let bytes = zeros(heap, size)?;
        Ok(SegmentTable { slots, bytes })
    }

    // Makes a segment of zeros at a place that is free.
    pub(crate) fn occupy(
        &mut self,
        place: Place,
        name: &[u8],
        size: usize,
        allocator_id: u8,
    ) -> Opened
        requires vacant { FreePlace (extents self.old) (memory self.old) place size }
        requires fresh { GoodName name.now × ((rule : Rule) → Named (under rule self.old) name.now → ⊥) }
        requires sized { 1 ≤ size }
        ensures made { (rule : Rule) → rule (extents self.old) size ≡ Some place → StillLeave rule (extents self.old) (occupied (extents self.old) place size) → Made (under rule self.old) name.now size allocator_id result (under rule self.new) }
        ensures relaid { Relaid self.old (occupied (extents self.old) place size) self.new }
    {
        self.clear(place.start, size);
        let slot = Slot {
            name: Some(StoredName::of(name)),
            allocator_id,
            start: place.start,
            size,
            maps: 1,
        };
        self.put(place.handle, Some(slot));
        Opened {
            handle: place.handle,
            address: place.start as u64,
            allocator_id,
        }
    }
}
