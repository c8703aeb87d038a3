// Ported from src/resizable_shared_memory/dynamic.rs of crate iceoryx2-cal 0.9.3; see NOTICE.

ghost use Rattle.std.specs.Prelude.{◌≡◌, ◌≤◌, ◌++◌, length, Decides, MatchResult};
ghost use Rattle.shared_memory.specs.BaseNames.{GoodBase, name_byte, name_bytes};
ghost use Rattle.shared_memory.specs.Names.{text, written, name_number, segment_name, management_name, NamesApart};

use super::{BadName, BaseName, SegmentName};
use arrayvec::ArrayString;
use itoa::Buffer;
use pointer_offset::{Denial, SegmentId};
use std::str;

impl Denial for BadName {
    ghost number_of = { name_number };

    fn number(&self) -> u8 {
        2
    }
}

fn is_name_byte(byte: u8) -> bool
    ensures { result ≡ name_byte byte }
{
    matches!(byte, b'0'..=b'9' | b'A'..=b'Z' | b'a'..=b'z' | b'-' | b'.' | b'_')
}

fn are_name_bytes(bytes: &[u8]) -> bool
    ensures { result ≡ name_bytes bytes.now }
{
    bytes.iter().all(|byte| is_name_byte(*byte))
}

fn is_base_name(name: &[u8]) -> bool
    ensures { Decides result (GoodBase name.now) }
{
    if name.is_empty() || name.len() > 24 {
        return false;
    }
    if name == b".".as_slice() || name == b"..".as_slice() {
        return false;
    }
    are_name_bytes(name)
}

impl BaseName {
    pub fn new(name: &[u8]) -> Result<BaseName, BadName>
        ensures { MatchResult result (λ b. GoodBase name.now × (text b ≡ name.now)) (λ e. (GoodBase name.now → ⊥) × (name_number e ≡ 2)) }
    {
        if !is_base_name(name) {
            return Err(BadName);
        }
        // Its bytes are ASCII.
        let Ok(name) = str::from_utf8(name) else {
            unreachable()
        };
        let mut text = ArrayString::new();
        text.push_str(name);
        Ok(BaseName { text })
    }

    pub fn as_bytes(&self) -> &[u8]
        ensures { result.now ≡ text self.now }
    {
        self.text.as_str().as_bytes()
    }

    // The name of the segment of this id.
    pub fn segment(&self, id: SegmentId) -> SegmentName
        ensures { written result ≡ segment_name (text self.now) id.0 }
    {
        let mut digits = Buffer::new();
        let mut name = self.followed_by("__");
        name.text.push_str(digits.format(id.value()));
        name
    }

    // The name of the management segment.
    pub fn management(&self) -> SegmentName
        ensures { written result ≡ management_name (text self.now) }
    {
        self.followed_by("__mgmt")
    }

    fn followed_by(&self, tail: &str) -> SegmentName
        requires { length tail.now ≤ 8 }
        ensures { written result ≡ text self.now ++ tail.now }
    {
        let mut text = ArrayString::new();
        text.push_str(self.text.as_str());
        text.push_str(tail);
        SegmentName { text }
    }
}

impl SegmentName {
    pub fn as_bytes(&self) -> &[u8]
        ensures { result.now ≡ written self.now }
    {
        self.text.as_str().as_bytes()
    }
}

// Its contract is the theorem: no two names of one memory are equal, and every name fits.
pub fn names_are_apart()
    ensures { NamesApart }
{}
