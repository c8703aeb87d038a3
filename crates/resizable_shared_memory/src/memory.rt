// Ported from src/resizable_shared_memory/dynamic.rs of crate iceoryx2-cal 0.9.3; see NOTICE.

ghost use Rattle.resizable_shared_memory.specs.Entries.{GrantedUpTo};
ghost use Rattle.resizable_shared_memory.specs.Ledgers.{entries_of, Counted};
ghost use Rattle.resizable_shared_memory.specs.Places.{place_of, Ahead, Busy};
ghost use Rattle.std.specs.Prelude.{◌≡◌, true, is_some};

use crate::claim::Claim;
use crate::ledger::Ledger;
use crate::table::Table;
use pointer_offset::SegmentId;
use shared_memory::name::BaseName;
use shm_allocator::AllocationStrategy;

mod creation;
mod ending;
mod growth;
mod questions;
mod requests;
mod returns;
mod steps;
mod writing;

// What a memory keeps beside its allocator: where its segments are and which chunks are held.
#[derive(Drop)]
pub struct Tables {
    base: BaseName,
    strategy: AllocationStrategy,
    management: u16,
    table: Table,
    ledger: Ledger,
    current: SegmentId,
    given: u64,
    ghost mapped: { is_some (place_of table current.0) ≡ true },
    ghost ahead: { Ahead table current.0 },
    ghost busy: { Busy table current.0 },
    ghost counted: { Counted table ledger },
    ghost granted: { GrantedUpTo (entries_of ledger) given },
}

// A memory of one or more segments. Chunks come from the current one, whose allocator is kept.
#[derive(Drop)]
pub struct DynamicMemory<A> {
    allocator: A,
    tables: Tables,
}

// A chunk that was given: its claim, and the address of its first byte.
#[derive(PartialEq, Eq, Debug, Drop)]
pub struct Chunk {
    pub claim: Claim,
    pub address: u64,
}
