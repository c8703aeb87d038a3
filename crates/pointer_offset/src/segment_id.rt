// Ported from src/shm_allocator/pointer_offset.rs of crate iceoryx2-cal 0.9.3; see NOTICE.

ghost use Rattle.pointer_offset.specs.Packing.{max_id};
ghost use Rattle.std.specs.Prelude.{◌≡◌, ◌+◌, ◌<◌, MatchOption};

// Which segment of a memory is meant.
#[derive(Clone, Copy, PartialEq, Eq, Debug, Default)]
pub struct SegmentId(u8);

impl SegmentId {
    pub fn new(value: u8) -> Self
        ensures { result.0 ≡ value }
    {
        SegmentId(value)
    }

    pub fn value(&self) -> u8
        ensures { result ≡ self.now.0 }
    {
        self.0
    }

    pub fn max_segment_id() -> u8
        ensures { result ≡ max_id }
    {
        u8::MAX
    }

    // The id after this one, of which the last has none.
    pub fn successor(&self) -> Option<Self>
        ensures { MatchOption result (self.now.0 ≡ max_id) (λ n. (self.now.0 < max_id) × (n.0 ≡ self.now.0 + 1)) }
    {
        let next = self.0.checked_add(1)?;
        Some(SegmentId(next))
    }
}
