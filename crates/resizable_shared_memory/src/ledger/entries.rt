ghost use Rattle.std.specs.Prelude.{◌≡◌, ℕ, ◌<◌, [], ◌∷◌, ◌++◌, length, MatchBool};
ghost use Rattle.resizable_shared_memory.specs.Entries.{entry, entry_at};
ghost use Rattle.resizable_shared_memory.specs.Ledgers.{entries_of};
ghost use Rattle.std.specs.List.{remove};

use super::{Held, Ledger};
use crate::claim::Claim;
use arrayvec::ArrayVec;
use pointer_offset::PointerOffset;

impl Held {
    // What its holder shows.
    pub(crate) fn claim(&self) -> Claim
        ensures { (result.offset.0 ≡ (entry self.now).value) × (result.grant ≡ self.now.grant) }
    {
        let packed = PointerOffset::from_offset_and_segment_id(self.start as usize, self.segment);
        let Ok(offset) = packed else { unreachable() };
        Claim {
            offset,
            grant: self.grant,
        }
    }
}

impl Ledger {
    pub(crate) fn empty() -> Ledger
        ensures { entries_of result ≡ [] }
    {
        Ledger {
            entries: ArrayVec::new(),
        }
    }

    pub(crate) fn is_full(&self) -> bool
        ensures { MatchBool result (length (entries_of self.now) ≡ 1024) (length (entries_of self.now) < 1024) }
    {
        self.entries.is_full()
    }

    // Enters a chunk that was granted after all the others.
    pub(crate) fn push(&mut self, held: Held)
        requires room { length (entries_of self.old) < 1024 }
        requires newest { (i : ℕ) → i < length (entries_of self.old) → (entry_at (entries_of self.old) i).grant < held.grant }
        ensures { entries_of self.new ≡ entries_of self.old ++ (entry held ∷ []) }
    {
        self.entries.push(held);
    }

    // Takes out the chunk at a place. The others keep their order.
    pub(crate) fn remove(&mut self, at: usize)
        requires { at < length (entries_of self.old) }
        ensures { entries_of self.new ≡ remove (entries_of self.old) at }
    {
        self.entries.remove(at);
    }
}
