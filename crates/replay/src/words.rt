use shm_allocator::layout::Layout;
use std::alloc::{AllocError, Global};

// What a line with words says.
#[derive(Clone, Copy)]
pub enum Said<'a> {
    SetUp(Kind),
    Call(Call<'a>),
    // Words that are no call.
    Other,
}

// What a part of a list works on.
#[derive(Clone, Copy)]
pub enum Kind {
    Pool { bucket_layout: Layout, payload: u64 },
    Bump { payload: u64 },
    Store { shape: Shape, quota: Option<u64> },
}

// How a store cuts its memory.
#[derive(Clone, Copy)]
pub enum Shape {
    Frames { count: u64, size: u64 },
    Span { pages: u64 },
}

// A call as the list writes it.
#[derive(Clone, Copy)]
pub enum Call<'a> {
    Allocator(AllocatorCall<'a>),
    Store(StoreCall<'a>),
}

#[derive(Clone, Copy)]
pub enum AllocatorCall<'a> {
    Allocate { name: &'a str, layout: Layout },
    Return { name: &'a str },
}

#[derive(Clone, Copy)]
pub enum StoreCall<'a> {
    Make {
        name: &'a str,
        size: u64,
    },
    Open {
        name: &'a str,
    },
    Room {
        size: u64,
    },
    OnSegment {
        name: &'a str,
        call: SegmentCall<'a>,
    },
}

// A call on the segment whose handle was last answered for a name.
#[derive(Clone, Copy)]
pub enum SegmentCall<'a> {
    Withdraw,
    Close,
    Write { from: u64, text: &'a str },
    Read { from: u64, count: u64 },
}

// The words of a line. From a '#' on, it is a comment.
pub fn split(heap: Global, line: &str) -> Result<Vec<&str>, AllocError> {
    let said = match line.split_once('#') {
        Some((said, _comment)) => said,
        None => line,
    };
    said.split_whitespace().collect(heap)
}

impl<'a> Said<'a> {
    pub fn from_words(words: &[&'a str]) -> Said<'a> {
        if let Some(kind) = Kind::from_words(words) {
            return Said::SetUp(kind);
        }
        Call::from_words(words).map_or(Said::Other, Said::Call)
    }
}

impl Kind {
    fn from_words(words: &[&str]) -> Option<Kind> {
        match *words {
            ["pool", size, align, payload] => Some(Kind::Pool {
                bucket_layout: layout(size, align)?,
                payload: number(payload)?,
            }),
            ["bump", payload] => Some(Kind::Bump {
                payload: number(payload)?,
            }),
            [ref shape @ .., "quota", quota] => Some(Kind::Store {
                shape: Shape::from_words(shape)?,
                quota: Some(number(quota)?),
            }),
            _ => Some(Kind::Store {
                shape: Shape::from_words(words)?,
                quota: None,
            }),
        }
    }
}

impl Shape {
    fn from_words(words: &[&str]) -> Option<Shape> {
        match *words {
            ["frames", count, size] => Some(Shape::Frames {
                count: number(count)?,
                size: number(size)?,
            }),
            ["span", pages] => Some(Shape::Span {
                pages: number(pages)?,
            }),
            _ => None,
        }
    }
}

impl<'a> Call<'a> {
    fn from_words(words: &[&'a str]) -> Option<Call<'a>> {
        AllocatorCall::from_words(words)
            .map(Call::Allocator)
            .or_else(|| StoreCall::from_words(words).map(Call::Store))
    }
}

impl<'a> AllocatorCall<'a> {
    fn from_words(words: &[&'a str]) -> Option<AllocatorCall<'a>> {
        match *words {
            ["allocate", name, size, align] => Some(AllocatorCall::Allocate {
                name,
                layout: layout(size, align)?,
            }),
            ["return", name] => Some(AllocatorCall::Return { name }),
            _ => None,
        }
    }
}

impl<'a> StoreCall<'a> {
    fn from_words(words: &[&'a str]) -> Option<StoreCall<'a>> {
        match *words {
            ["make", name, size] => Some(StoreCall::Make {
                name,
                size: number(size)?,
            }),
            ["open", name] => Some(StoreCall::Open { name }),
            ["room", size] => Some(StoreCall::Room {
                size: number(size)?,
            }),
            [verb, name, ref rest @ ..] => {
                let call = SegmentCall::from_words(verb, rest)?;
                Some(StoreCall::OnSegment { name, call })
            }
            _ => None,
        }
    }
}

impl<'a> SegmentCall<'a> {
    fn from_words(verb: &str, words: &[&'a str]) -> Option<SegmentCall<'a>> {
        match (verb, words) {
            ("withdraw", []) => Some(SegmentCall::Withdraw),
            ("close", []) => Some(SegmentCall::Close),
            ("write", [from, text]) => Some(SegmentCall::Write {
                from: number(from)?,
                text: *text,
            }),
            ("read", [from, count]) => Some(SegmentCall::Read {
                from: number(from)?,
                count: number(count)?,
            }),
            _ => None,
        }
    }
}

fn layout(size: &str, align: &str) -> Option<Layout> {
    Some(Layout {
        size: number(size)?,
        align: number(align)?,
    })
}

fn number(word: &str) -> Option<u64> {
    word.parse().ok()
}
