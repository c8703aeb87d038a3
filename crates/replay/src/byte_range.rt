use std::fmt;

// Bytes of a segment's payload.
#[derive(Clone, Copy)]
pub struct ByteRange {
    pub start: u32,
    pub size: u32,
}

impl ByteRange {
    fn end(&self) -> u64 {
        u64::from(self.start) + u64::from(self.size)
    }

    pub fn meets(&self, other: ByteRange) -> bool {
        u64::from(self.start) < other.end() && u64::from(other.start) < self.end()
    }
}

impl fmt::Display for ByteRange {
    fn fmt<W: fmt::Write>(&self, f: &mut fmt::Formatter<W>) -> fmt::Result {
        write!(f, "{} bytes from {} on", self.size, self.start)
    }
}
