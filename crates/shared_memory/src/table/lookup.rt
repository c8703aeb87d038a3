ghost use Rattle.shared_memory.specs.Clearings.{Blocks};
ghost use Rattle.shared_memory.specs.Extents.{Rule, first_free};
ghost use Rattle.shared_memory.specs.Meaning.{Named, Empty, size_at};
ghost use Rattle.shared_memory.specs.Slots.{name_of, slot_at};
ghost use Rattle.shared_memory.specs.Tables.{slots_of, extents, under, Finds};
ghost use Rattle.std.specs.Prelude.{◌≡◌, Some, is_none, Decides, MatchBool};
ghost use Rattle.std.specs.List.{position, list_all};

use super::{SegmentTable, Slot};

impl Slot {
    fn is_named(&self, name: &[u8]) -> bool
        ensures { Decides result (name_of self.now ≡ Some name.now) }
    {
        self.name.as_ref().is_some_and(|own| own.is(name))
    }
}

fn first_vacant(slots: &[Option<Slot>]) -> Option<usize>
    ensures { result ≡ position is_none slots.now }
{
    slots.iter().position(Option::is_none)
}

fn all_vacant(slots: &[Option<Slot>]) -> bool
    ensures { result ≡ list_all is_none slots.now }
{
    slots.iter().all(Option::is_none)
}

// Questions, which change nothing.
impl SegmentTable {
    // What stands under a handle.
    pub(super) fn slot(&self, handle: u16) -> Option<Slot>
        ensures { result ≡ slot_at (slots_of self.now) handle }
    {
        self.slots.get(handle as usize).copied().flatten()
    }

    // The segment of a name, with its handle.
    pub(super) fn find(&self, name: &[u8]) -> Option<(u16, Slot)>
        ensures { Finds self.now name.now result }
    {
        for (handle, slot) in self.slots.iter().enumerate() {
            if let Some(slot) = slot
                && slot.is_named(name)
            {
                return Some((handle as u16, *slot));
            }
        }
        None
    }

    // The first free handle.
    pub(crate) fn vacancy(&self) -> Option<u16>
        ensures { result ≡ first_free (extents self.now) }
    {
        first_vacant(&self.slots).map(|handle| handle as u16)
    }

    // The end of a segment that has one of the bytes from `from` on and before `to`.
    pub(crate) fn blocker(&self, from: usize, to: usize) -> Option<usize>
        ensures { Blocks (extents self.now) from to result }
    {
        // No `flatten`: behind it the bound of each slot is lost.
        for slot in &self.slots {
            if let Some(slot) = slot {
                let end = slot.start + slot.size;
                if slot.start < to && from < end {
                    return Some(end);
                }
            }
        }
        None
    }

    pub(crate) fn is_named(&self, name: &[u8]) -> bool
        ensures { (rule : Rule) → MatchBool result (Named (under rule self.now) name.now) (Named (under rule self.now) name.now → ⊥) }
    {
        self.find(name).is_some()
    }

    pub(crate) fn payload_size(&self, handle: u16) -> Option<u64>
        ensures { (rule : Rule) → result ≡ size_at (under rule self.now) handle }
    {
        self.slot(handle).map(|slot| slot.size as u64)
    }

    pub(crate) fn is_empty(&self) -> bool
        ensures { (rule : Rule) → MatchBool result (Empty (under rule self.now)) (Empty (under rule self.now) → ⊥) }
    {
        all_vacant(&self.slots)
    }
}
