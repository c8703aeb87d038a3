ghost use Rattle.shared_memory.specs.BaseNames.{GoodBase};
ghost use Rattle.shared_memory.specs.Meaning.{GoodName};

use arrayvec::ArrayString;

#[cfg(test)]
mod tests;
pub mod written;

// A memory's base name: 1 to 24 letters, digits, '-', '.' or '_', but neither "." nor "..".
#[derive(Clone, Copy)]
pub struct BaseName {
    text: ArrayString<24>,
    ghost good: { GoodBase text.bytes },
}

// The name of a memory's segment.
#[derive(Clone, Copy)]
pub struct SegmentName {
    text: ArrayString<32>,
    ghost good: { GoodName text.bytes },
}

// A text that is no base name.
#[derive(Clone, Copy, PartialEq, Eq, Debug)]
pub struct BadName;
