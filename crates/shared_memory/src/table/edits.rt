ghost use Rattle.std.specs.Prelude.{◌<◌, length, Ok, slice_set};
ghost use Rattle.shared_memory.specs.Extents.{Rule, Lie, Monotone};
ghost use Rattle.shared_memory.specs.Meaning.{Left, Opens, Withdraws, Closes};
ghost use Rattle.shared_memory.specs.Slots.{extents_in};
ghost use Rattle.shared_memory.specs.Tables.{slots_of, memory, extents, under, segment_of, still_laid, Puts, Follows, Relaid};

use super::{SegmentTable, Slot};
use crate::fault::{BadHandle, SharedMemoryOpenError};
use crate::opened::Opened;
use crate::requests::is_good_name;

impl SegmentTable {
    // Puts a slot, or none, in the place of what stands under the handle.
    pub(super) fn put(&mut self, handle: u16, slot: Option<Slot>)
        requires inside { handle < length (slots_of self.old) }
        requires lie { Lie (extents_in (slice_set (slots_of self.old) handle slot)) (memory self.old) }
        ensures { Puts self.old handle slot self.new }
    {
        self.slots[handle as usize] = slot;
    }

    // Puts back a slot that lost its name or a map, or frees its handle where it has neither left.
    fn settle(&mut self, handle: u16, slot: Slot) -> bool
        requires { Follows self.old handle slot }
        ensures left { (rule : Rule) → Monotone rule → Left (under rule self.old) handle (segment_of self.old slot) (under rule self.new) result }
        ensures relaid { Relaid self.old (still_laid (extents self.old) handle (Ok result)) self.new }
    {
        if slot.name.is_none() && slot.maps == 0 {
            self.put(handle, None);
            return false;
        }
        self.put(handle, Some(slot));
        true
    }

    pub(crate) fn open(&mut self, name: &[u8]) -> Result<Opened, SharedMemoryOpenError>
        ensures does { (rule : Rule) → Opens (under rule self.old) name.now result (under rule self.new) }
        ensures relaid { Relaid self.old (extents self.old) self.new }
    {
        if !is_good_name(name) {
            return Err(SharedMemoryOpenError::BadName);
        }
        let (handle, slot) = self.find(name).ok_or(SharedMemoryOpenError::DoesNotExist)?;
        let maps = slot
            .maps
            .checked_add(1)
            .ok_or(SharedMemoryOpenError::InternalError)?;
        self.put(handle, Some(Slot { maps, ..slot }));
        Ok(Opened {
            handle,
            address: slot.start as u64,
            allocator_id: slot.allocator_id,
        })
    }

    pub(crate) fn withdraw(&mut self, handle: u16) -> Result<bool, BadHandle>
        ensures does { (rule : Rule) → Monotone rule → Withdraws (under rule self.old) handle result (under rule self.new) }
        ensures relaid { Relaid self.old (still_laid (extents self.old) handle result) self.new }
    {
        let slot = self.slot(handle).ok_or(BadHandle)?;
        if slot.name.is_none() {
            return Err(BadHandle);
        }
        let maps = slot.maps.saturating_sub(1);
        Ok(self.settle(
            handle,
            Slot {
                name: None,
                maps,
                ..slot
            },
        ))
    }

    pub(crate) fn close(&mut self, handle: u16) -> Result<bool, BadHandle>
        ensures does { (rule : Rule) → Monotone rule → Closes (under rule self.old) handle result (under rule self.new) }
        ensures relaid { Relaid self.old (still_laid (extents self.old) handle result) self.new }
    {
        let slot = self.slot(handle).ok_or(BadHandle)?;
        let maps = slot.maps.checked_sub(1).ok_or(BadHandle)?;
        Ok(self.settle(handle, Slot { maps, ..slot }))
    }
}
