use crate::byte_range::ByteRange;
use crate::outcome::{CallError, Done, NotDone, Outcome};
use crate::words::{AllocatorCall, Call};
use crate::workplace::Workplace;
use pointer_offset::PointerOffset;
use shm_allocator::ShmAllocator;
use shm_allocator::layout::{Layout, ValidLayout};
use std::alloc::Global;

// A chunk by the name that the list gives it.
#[derive(Drop)]
struct Chunk {
    name: String,
    bytes: ByteRange,
    held: bool,
    // Its bytes came free by a return under another name. Apart from `held`, since all four cases occur.
    lost: bool,
}

impl Chunk {
    fn is_named(&self, name: &str) -> bool {
        self.name.as_str() == name
    }
}

// One segment's allocator, and the names of what it gave out.
#[derive(Drop)]
pub struct Desk<A: ShmAllocator> {
    heap: Global,
    allocator: A,
    chunks: Vec<Chunk>,
}

impl<A: ShmAllocator> Desk<A> {
    pub fn new(heap: Global, allocator: A) -> Desk<A> {
        Desk {
            heap,
            allocator,
            chunks: Vec::new(heap),
        }
    }

    fn allocate(&mut self, name: &str, layout: Layout) -> Result<Done, CallError> {
        let layout = ValidLayout::try_from(layout).map_err(NotDone::BadLayout)?;
        if self.is_held(name) {
            return Err(NotDone::NameInUse.into());
        }
        let name = String::from_str(self.heap, name)?;
        let start = self.allocator.allocate(layout).map_err(NotDone::Refused)?;
        let size = layout.size();
        self.chunks.push(Chunk {
            name,
            bytes: ByteRange { start, size },
            held: true,
            lost: false,
        })?;
        let Ok(at) = PointerOffset::new(start as usize) else {
            unreachable()
        };
        Ok(Done::Taken { at, size })
    }

    fn is_held(&self, name: &str) -> bool {
        self.chunks
            .iter()
            .any(|chunk| chunk.held && chunk.is_named(name))
    }

    // Takes back the latest chunk of that name, whether it was returned before or not.
    fn give_back(&mut self, name: &str) -> Outcome {
        let chunk = self
            .chunks
            .iter_mut()
            .rfind(|chunk| chunk.is_named(name))
            .ok_or(NotDone::UnknownName)?;
        let bytes = chunk.bytes;
        self.allocator
            .deallocate(bytes.start, bytes.size)
            .map_err(NotDone::NotHeld)?;
        chunk.held = false;
        if self.allocator.bucket() == 0 {
            return Ok(Done::Kept(bytes));
        }
        Ok(Done::TakenBack {
            bytes,
            under_another_name: self.lose(bytes),
        })
    }

    // Marks each held chunk with bytes there as lost; whether there was one.
    fn lose(&mut self, freed: ByteRange) -> bool {
        let mut any = false;
        for chunk in self.chunks.iter_mut() {
            if chunk.held && chunk.bytes.meets(freed) {
                chunk.lost = true;
                any = true;
            }
        }
        any
    }
}

impl<A: ShmAllocator> Workplace for Desk<A> {
    fn carry_out(&mut self, call: Call<'_>) -> Result<Done, CallError> {
        let Call::Allocator(call) = call else {
            return Err(NotDone::OtherPart.into());
        };
        match call {
            AllocatorCall::Allocate { name, layout } => self.allocate(name, layout),
            AllocatorCall::Return { name } => Ok(self.give_back(name)?),
        }
    }

    fn sum_up(&self, rt: &HostRuntime) -> anyhow::Result<()> {
        for chunk in &self.chunks {
            let Chunk { name, bytes, .. } = chunk;
            if chunk.lost {
                println!(rt;
                    "    {name} counts on {bytes}, which were taken back under another name"
                )?;
            } else if chunk.held {
                println!(rt; "    {name} holds {bytes}")?;
            }
        }
        Ok(())
    }
}
