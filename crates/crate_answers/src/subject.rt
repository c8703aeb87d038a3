use crate::answer::Answer;
use crate::call::{Call, Creation};
use crate::counts::Counts;
use crate::finding::{Finding, Trouble};
use crate::reason::Reason;
use pointer_offset::{PointerOffset, SegmentId};
use shm_allocator::layout::{Layout, ValidLayout};
use shm_allocator::{AllocationStrategy, SharedMemorySetupHint, ShmAllocationError, ShmAllocator};
use std::alloc::{AllocError, Global};

// An accepted allocation.
#[derive(Clone, Copy)]
struct Chunk {
    segment: SegmentId,
    // None once it was returned.
    block: Option<Block>,
}

#[derive(Clone, Copy)]
struct Block {
    start: u32,
    size: u32,
}

// What a segment can be set up with.
#[derive(Clone, Copy)]
struct Setup<C> {
    segment: SegmentId,
    config: C,
    payload: u32,
}

// What a round of a request comes to.
#[derive(Clone, Copy)]
enum Round<C> {
    Start(u32),
    Growth(Setup<C>),
}

// A memory without its store: the allocator of the current segment, and what was given out so far.
#[derive(Drop)]
pub struct Subject<A: ShmAllocator> {
    allocator: A,
    segment: SegmentId,
    strategy: AllocationStrategy,
    chunks: Vec<Chunk>,
}

// The setup that a hint asks for, if it is possible.
fn hinted_setup<A: ShmAllocator>(
    segment: SegmentId,
    hint: SharedMemorySetupHint<A::Configuration>,
) -> Result<Setup<A::Configuration>, Reason> {
    let config = hint.config;
    u32::try_from(hint.payload_size)
        .ok()
        .filter(|payload| A::can_set_up(config, *payload))
        .map(|payload| Setup {
            segment,
            config,
            payload,
        })
        .ok_or(Reason::InternalError)
}

fn first_setup<A: ShmAllocator>(
    layout: ValidLayout,
    chunks: u64,
) -> Result<Setup<A::Configuration>, Reason> {
    let hint = A::initial_setup_hint(layout, chunks);
    if hint.payload_size == 0 {
        return Err(Reason::SizeIsZero);
    }
    hinted_setup::<A>(SegmentId::new(0), hint)
}

impl<A: ShmAllocator> Subject<A> {
    // The memory that a list creates, unless its creation is denied.
    pub fn create(
        heap: Global,
        creation: Creation,
        layout: ValidLayout,
        counts: &mut Counts,
    ) -> Result<Option<Box<Subject<A>>>, Trouble> {
        let setup = first_setup::<A>(layout, creation.chunks);
        let came = setup.map(|setup| u64::from(setup.payload));
        counts.compare(Answer::Creation(creation.recorded), Answer::Creation(came))?;
        let Ok(setup) = setup else {
            return Ok(None);
        };
        let subject = Subject {
            allocator: A::set_up(setup.config, setup.payload),
            segment: setup.segment,
            strategy: creation.strategy,
            chunks: Vec::new(heap),
        };
        let subject = Box::new(heap, subject).map_err(AllocError::from)?;
        Ok(Some(subject))
    }

    pub fn carry_out(&mut self, call: &Call, counts: &mut Counts) -> Result<Finding, Trouble> {
        match call {
            Call::Create(_) => Err(Trouble::Misplaced),
            Call::Allocate {
                layout,
                made,
                recorded,
            } => self.allocate(*layout, made.as_slice(), *recorded, counts),
            Call::Return { chunk } => self.give_back(*chunk, counts),
            Call::BucketSize { chunk, recorded } => self.bucket_size(*chunk, *recorded, counts),
            Call::OpenViewer | Call::View | Call::End => Ok(Finding::PassedOver),
        }
    }

    fn allocate(
        &mut self,
        layout: Layout,
        made: &[u64],
        recorded: Result<u64, Reason>,
        counts: &mut Counts,
    ) -> Result<Finding, Trouble> {
        let layout = ValidLayout::try_from(layout).map_err(|_| Trouble::Misplaced)?;
        for payload in made {
            let came = self.grow(layout);
            counts.compare(Answer::Growth(*payload), came)?;
        }
        let came = self.finish(layout)?;
        counts.compare(Answer::Allocation(recorded), came)
    }

    // A round in which a segment was made.
    fn grow(&mut self, layout: ValidLayout) -> Answer {
        match self.round(layout) {
            Ok(Round::Start(start)) => Answer::Allocation(Ok(self.value_of(start))),
            Ok(Round::Growth(setup)) => {
                self.allocator = A::set_up(setup.config, setup.payload);
                self.segment = setup.segment;
                Answer::Growth(u64::from(setup.payload))
            }
            Err(reason) => Answer::Allocation(Err(reason)),
        }
    }

    // The last round of a request, in which none was made.
    fn finish(&mut self, layout: ValidLayout) -> Result<Answer, AllocError> {
        match self.round(layout) {
            Ok(Round::Start(start)) => {
                let size = layout.size();
                self.chunks.push(Chunk {
                    segment: self.segment,
                    block: Some(Block { start, size }),
                })?;
                Ok(Answer::Allocation(Ok(self.value_of(start))))
            }
            Ok(Round::Growth(_)) => Ok(Answer::LeftToStore),
            Err(reason) => Ok(Answer::Allocation(Err(reason))),
        }
    }

    fn round(&mut self, layout: ValidLayout) -> Result<Round<A::Configuration>, Reason> {
        match self.allocator.allocate(layout) {
            Ok(start) => Ok(Round::Start(start)),
            Err(refusal) => self.growth(refusal, layout).map(Round::Growth),
        }
    }

    // The segment to make after a refusal.
    fn growth(
        &self,
        refusal: ShmAllocationError,
        layout: ValidLayout,
    ) -> Result<Setup<A::Configuration>, Reason> {
        if self.strategy == AllocationStrategy::Static {
            return Err(Reason::of(refusal));
        }
        let segment = self
            .segment
            .successor()
            .ok_or(Reason::MaxReallocationsReached)?;
        hinted_setup::<A>(segment, self.allocator.resize_hint(layout, self.strategy))
    }

    // What a start of the current segment's allocator is as a value.
    fn value_of(&self, start: u32) -> u64 {
        let packed = PointerOffset::from_offset_and_segment_id(start as usize, self.segment);
        let Ok(at) = packed else { unreachable() };
        at.as_value()
    }

    fn give_back(&mut self, place: usize, counts: &mut Counts) -> Result<Finding, Trouble> {
        let chunk = self.chunks.get_mut(place).ok_or(Trouble::Misplaced)?;
        let block = chunk.block.take().ok_or(Trouble::Misplaced)?;
        if chunk.segment != self.segment {
            return Ok(Finding::PassedOver);
        }
        let came = self
            .allocator
            .deallocate(block.start, block.size)
            .map_err(Reason::of);
        counts.compare(Answer::Return(Ok(())), Answer::Return(came))
    }

    fn bucket_size(
        &self,
        place: usize,
        recorded: u64,
        counts: &mut Counts,
    ) -> Result<Finding, Trouble> {
        let chunk = self.chunks.get(place).ok_or(Trouble::Misplaced)?;
        if chunk.segment != self.segment {
            return Ok(Finding::PassedOver);
        }
        let came = u64::from(self.allocator.bucket());
        counts.compare(Answer::BucketSize(recorded), Answer::BucketSize(came))
    }
}
