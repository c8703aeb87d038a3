// Ported from src/resizable_shared_memory/dynamic.rs of crate iceoryx2-cal 0.9.3; see NOTICE.

ghost use Rattle.std.specs.Prelude.{◌≡◌, ◌+◌, ◌-◌, ◌^◌, ◌<◌, length};
ghost use Rattle.resizable_shared_memory.specs.Ledgers.{entries_of};
ghost use Rattle.resizable_shared_memory.specs.Moves.{Advances, Begins, Enters, ReleasesHeld, Reaches};
ghost use Rattle.shared_memory.specs.Names.{text};

use super::{Chunk, Tables};
use crate::claim::Claim;
use crate::ledger::{Held, Ledger};
use crate::table::{Place, Table};
use pointer_offset::SegmentId;
use shared_memory::SegmentStore;
use shared_memory::name::BaseName;
use shm_allocator::AllocationStrategy;

impl Tables {
    // The tables of a memory whose first segment was opened.
    pub(super) fn new(
        base: BaseName,
        strategy: AllocationStrategy,
        management: u16,
        first: Place,
    ) -> Tables
        requires { first.count ≡ 0 }
        ensures { Begins (text base) strategy management first result }
    {
        let mut table = Table::empty();
        table.put(SegmentId::new(0), Some(first));
        Tables {
            base,
            strategy,
            management,
            table,
            ledger: Ledger::empty(),
            current: SegmentId::new(0),
            given: 0,
        }
    }

    // Makes a chunk of a start in the current segment.
    pub(super) fn enter(&mut self, start: u32, size: u32) -> Chunk
        requires room { length (entries_of self.old.ledger) < 1024 }
        requires grants { self.old.given < 2 ^ 64 - 1 }
        ensures { Enters self.old start size result self.new }
    {
        let place = self.table.mapped(self.current);
        let held = Held {
            segment: self.current,
            start,
            grant: self.given + 1,
            size,
        };
        self.given = held.grant;
        self.ledger.push(held);
        self.table
            .put(self.current, Some(place.with_count(place.count + 1)));
        Chunk {
            claim: held.claim(),
            address: place.address + start as u64,
        }
    }

    // Makes the next segment current, which was opened, and leaves the one that was.
    pub(super) fn advance<S: SegmentStore>(&mut self, next: SegmentId, place: Place, store: &mut S)
        requires next { next.0 ≡ self.old.current.0 + 1 }
        requires unused { place.count ≡ 0 }
        ensures { Advances self.old (S.SegmentStore.means store.old) place self.new (S.SegmentStore.means store.new) }
    {
        self.table.leave(self.current, store);
        self.table.put(next, Some(place));
        self.current = next;
    }

    // Takes a chunk out of the ledger, if it is held, and counts it off its segment.
    pub(super) fn release<S: SegmentStore>(&mut self, store: &mut S, claim: Claim) -> Option<Held>
        ensures { ReleasesHeld claim.offset.0 claim.grant self.old (S.SegmentStore.means store.old) result self.new (S.SegmentStore.means store.new) }
    {
        let (at, held) = self.ledger.find(claim)?;
        self.ledger.remove(at);
        self.table
            .lower(claim.offset.segment_id(), self.current, store);
        Some(held)
    }

    // A chunk that is held, and the place of its segment.
    pub(super) fn reach(&self, claim: Claim) -> Option<(Held, Place)>
        ensures { Reaches claim.offset.0 claim.grant self.now result }
    {
        let (_, held) = self.ledger.find(claim)?;
        let place = self.table.mapped(claim.offset.segment_id());
        Some((held, place))
    }
}
