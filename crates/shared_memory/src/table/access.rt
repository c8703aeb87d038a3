ghost use Rattle.std.specs.Prelude.{◌≡◌, ◌+◌, ◌≤◌, length, replicate};
ghost use Rattle.shared_memory.specs.Extents.{Rule};
ghost use Rattle.shared_memory.specs.Meaning.{Reads, Writes, part, patched};
ghost use Rattle.shared_memory.specs.Tables.{memory, extents, under, Locates, Patches, Relaid};

use super::SegmentTable;
use crate::fault::AccessError;

// Reads the bytes that stand from a place on.
fn copy_out(all: &[u8], at: usize, buffer: &mut [u8])
    requires { at + length buffer.old ≤ length all.now }
    ensures { buffer.new ≡ part all.now at (length buffer.old) }
{
    let end = at + buffer.len();
    buffer.copy_from_slice(&all[at..end]);
}

impl SegmentTable {
    // Where in the memory `len` bytes begin, counted from the byte `from` of a segment on.
    fn locate(&self, handle: u16, from: u64, len: usize) -> Result<usize, AccessError>
        ensures { Locates self.now handle from len result }
    {
        let slot = self.slot(handle).ok_or(AccessError::BadHandle)?;
        let from = from as usize;
        if len > slot.size || from > slot.size - len {
            return Err(AccessError::OutsidePayload);
        }
        Ok(slot.start + from)
    }

    // Writes the bytes over those that stand from a place on.
    fn overwrite(&mut self, at: usize, bytes: &[u8])
        requires { at + length bytes.now ≤ memory self.old }
        ensures { Patches self.old at bytes.now self.new }
    {
        self.bytes[at..at + bytes.len()].copy_from_slice(bytes);
    }

    // Writes zeros over the bytes that stand from a place on.
    pub(super) fn clear(&mut self, at: usize, size: usize)
        requires { at + size ≤ memory self.old }
        ensures { Patches self.old at (replicate size 0) self.new }
    {
        self.bytes[at..at + size].fill(0);
    }

    pub(crate) fn read(&self, handle: u16, from: u64, buffer: &mut [u8]) -> Result<(), AccessError>
        ensures { (rule : Rule) → Reads (under rule self.now) handle from buffer.old result buffer.new }
    {
        let at = self.locate(handle, from, buffer.len())?;
        copy_out(self.bytes.as_slice(), at, buffer);
        Ok(())
    }

    pub(crate) fn write(&mut self, handle: u16, from: u64, bytes: &[u8]) -> Result<(), AccessError>
        ensures does { (rule : Rule) → Writes (under rule self.old) handle from bytes.now result (under rule self.new) }
        ensures relaid { Relaid self.old (extents self.old) self.new }
    {
        let at = self.locate(handle, from, bytes.len())?;
        self.overwrite(at, bytes);
        Ok(())
    }
}
