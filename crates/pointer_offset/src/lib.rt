// Ported from src/shm_allocator/pointer_offset.rs of crate iceoryx2-cal 0.9.3; see NOTICE.
#![tactic(auto)]

ghost use Rattle.std.specs.Prelude.{◌≡◌, ◌+◌, ◌*◌, ◌<◌, ◌≤◌, MatchResult};
ghost use Rattle.pointer_offset.specs.Packing.{packed, packing, offset_of, id_of, with_id, offset_number, Lossless};
ghost use Rattle.pointer_offset.specs.Packing.Packing.{packs, denied};

pub use denial::Denial;
pub use segment_id::SegmentId;
use std::fmt;

mod denial;
mod segment_id;

// An offset that leaves no room for a segment id beside it.
#[derive(Clone, Copy, PartialEq, Eq, Debug)]
pub struct OffsetTooLarge;

impl Denial for OffsetTooLarge {
    ghost number_of = { offset_number };

    fn number(&self) -> u8 {
        3
    }
}

// A place in a memory: an offset into the payload of one of its segments, with that segment's id.
#[derive(Clone, Copy, PartialEq, Eq)]
pub struct PointerOffset(u64);

impl PointerOffset {
    // The place at an offset of segment 0.
    pub fn new(offset: usize) -> Result<PointerOffset, OffsetTooLarge>
        ensures { MatchResult result (λ p. packing offset 0 ≡ packs p.0) (λ e. packing offset 0 ≡ denied (offset_number e)) }
    {
        PointerOffset::from_offset_and_segment_id(offset, SegmentId::new(0))
    }

    pub fn from_offset_and_segment_id(
        offset: usize,
        segment_id: SegmentId,
    ) -> Result<PointerOffset, OffsetTooLarge>
        ensures { MatchResult result (λ p. packing offset segment_id.0 ≡ packs p.0) (λ e. packing offset segment_id.0 ≡ denied (offset_number e)) }
    {
        if offset >= 1 << 56 {
            return Err(OffsetTooLarge);
        }
        Ok(PointerOffset(offset as u64 * 256 + segment_id.value() as u64))
    }

    // Named as in the crate, like `as_value`, and so no `From`.
    pub fn from_value(value: u64) -> PointerOffset
        ensures { result.0 ≡ value }
    {
        PointerOffset(value)
    }

    pub fn as_value(&self) -> u64
        ensures { result ≡ self.now.0 }
    {
        self.0
    }

    // Another segment's place at the same offset.
    pub fn set_segment_id(&mut self, value: SegmentId)
        ensures { self.new.0 ≡ with_id self.old.0 value.0 }
    {
        *self = PointerOffset(self.0 / 256 * 256 + value.value() as u64);
    }

    pub fn offset(&self) -> usize
        ensures { result ≡ offset_of self.now.0 }
    {
        (self.0 / 256) as usize
    }

    pub fn segment_id(&self) -> SegmentId
        ensures { result.0 ≡ id_of self.now.0 }
    {
        SegmentId::new((self.0 % 256) as u8)
    }
}

// By hand: a derived impl would show the packed number alone.
impl fmt::Debug for PointerOffset {
    fn fmt<W: fmt::Write>(&self, f: &mut fmt::Formatter<W>) -> fmt::Result {
        let offset = self.offset();
        let segment_id = self.segment_id();
        write!(
            f,
            "PointerOffset {{ offset: {offset}, segment_id: {segment_id:?} }}"
        )
    }
}

// Its contract is the theorem: packing and unpacking lose nothing.
pub fn packing_is_lossless()
    ensures { Lossless }
{}

#[cfg(test)]
mod tests {
    use super::*;
    use std::test::Fail;

    #[test]
    fn packs_both_ways(rt: HostRuntime) -> Result<(), Fail> {
        let mut p = PointerOffset::from_offset_and_segment_id(5, SegmentId::new(3))?;
        assert_eq!(rt; p.as_value(), 1283);
        assert_eq!(rt; p.offset(), 5);
        assert_eq!(rt; p.segment_id().value(), 3);
        p.set_segment_id(SegmentId::new(SegmentId::max_segment_id()));
        assert_eq!(rt; p, PointerOffset::from_value(5 * 256 + 255));
        Ok(())
    }

    #[test]
    fn limits(rt: HostRuntime) -> Result<(), Fail> {
        let last = (1 << 56) - 1;
        let p = PointerOffset::from_offset_and_segment_id(last, SegmentId::new(255))?;
        assert_eq!(rt; p.as_value(), u64::MAX);
        assert_eq!(rt; PointerOffset::new(last + 1), Err(OffsetTooLarge));
        assert_eq!(rt; OffsetTooLarge.number(), 3);
        Ok(())
    }

    #[test]
    fn shows(rt: HostRuntime) -> Result<(), Fail> {
        let p = PointerOffset::from_value(1283);
        let shown = format!(in rt.alloc(); "{p:?}")?;
        assert_eq!(rt;
            shown.as_str(),
            "PointerOffset { offset: 5, segment_id: SegmentId(3) }"
        );
        Ok(())
    }
}
