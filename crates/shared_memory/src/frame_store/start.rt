ghost use Rattle.std.specs.Prelude.{◌≡◌, ◌*◌, MatchResult};
ghost use Rattle.shared_memory.specs.FrameStores.{NewFrames};
ghost use Rattle.shared_memory.specs.Frames.{GoodShape};
ghost use Rattle.shared_memory.specs.Faults.{StoreDenied};
ghost use Rattle.shared_memory.specs.declared.fault.StoreError.TheVariants.{BadStore};

use super::{FrameStore, Frames};
use crate::fault::StoreError;
use crate::table::{MAX_HANDLES, PAGE, SegmentTable};
use std::alloc::Global;

// How many bytes the frames have together, if a store may have that shape.
fn total(frames: usize, frame_size: usize) -> Result<usize, StoreError>
    ensures { MatchResult result (λ n. GoodShape frames frame_size × (n ≡ frames * frame_size)) (λ e. (GoodShape frames frame_size → ⊥) × (e ≡ BadStore)) }
{
    if frames == 0 || frames > MAX_HANDLES {
        return Err(StoreError::BadStore);
    }
    if frame_size == 0 || frame_size % PAGE != 0 {
        return Err(StoreError::BadStore);
    }
    let bytes = frames.checked_mul(frame_size).ok_or(StoreError::BadStore)?;
    if bytes > isize::MAX as usize {
        return Err(StoreError::BadStore);
    }
    Ok(bytes)
}

impl FrameStore {
    pub fn new(heap: Global, frames: usize, frame_size: usize) -> Result<FrameStore, StoreError>
        ensures { MatchResult result (λ s. NewFrames frames frame_size s.placing.size s.table) (StoreDenied (GoodShape frames frame_size)) }
    {
        let size = total(frames, frame_size)?;
        let table = SegmentTable::new(heap, frames, size)?;
        Ok(FrameStore {
            table,
            placing: Frames { size: frame_size },
        })
    }
}
