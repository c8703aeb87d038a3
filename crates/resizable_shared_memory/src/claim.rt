use pointer_offset::PointerOffset;

// What the holder of a chunk shows: where it is, and the number of its grant, by which it is told from an earlier holder.
#[derive(Clone, Copy, PartialEq, Eq, Debug)]
pub struct Claim {
    pub offset: PointerOffset,
    pub grant: u64,
}
