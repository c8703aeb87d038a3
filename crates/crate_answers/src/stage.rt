use crate::call::{Call, Creation, Kind};
use crate::counts::Counts;
use crate::finding::{Finding, Trouble};
use crate::reason::Reason;
use crate::subject::Subject;
use shm_allocator::bump_allocator::BumpAllocator;
use shm_allocator::layout::ValidLayout;
use shm_allocator::pool_allocator::PoolAllocator;
use std::alloc::Global;

// How far a list has come.
#[derive(Drop)]
pub enum Stage {
    // There is no memory: only viewers are opened.
    Uncreated,
    // In a box, since a pool takes five thousand bytes, which no other stage is to be moved with.
    Pool(Box<Subject<PoolAllocator>>),
    Bump(Box<Subject<BumpAllocator>>),
    Ended,
}

impl Stage {
    pub fn create(
        &mut self,
        heap: Global,
        creation: Creation,
        counts: &mut Counts,
    ) -> Result<Finding, Trouble> {
        let layout = ValidLayout::try_from(creation.layout).map_err(|_| Trouble::Misplaced)?;
        // The store may have denied it, where the allocator would not.
        if creation.recorded == Err(Reason::InternalError) {
            return Ok(Finding::PassedOver);
        }
        let created = match creation.kind {
            Kind::Pool => Subject::create(heap, creation, layout, counts)?.map(
                |subject| Stage::Pool(subject),
            ),
            Kind::Bump => Subject::create(heap, creation, layout, counts)?.map(
                |subject| Stage::Bump(subject),
            ),
        };
        *self = created.unwrap_or(Stage::Uncreated);
        Ok(Finding::Same)
    }

    pub fn carry_out(&mut self, call: &Call, counts: &mut Counts) -> Result<Finding, Trouble> {
        let found = match self {
            Stage::Pool(subject) => subject.carry_out(call, counts)?,
            Stage::Bump(subject) => subject.carry_out(call, counts)?,
            Stage::Uncreated if matches!(call, Call::OpenViewer) => Finding::PassedOver,
            Stage::Uncreated | Stage::Ended => return Err(Trouble::Misplaced),
        };
        if matches!(call, Call::End) {
            *self = Stage::Ended;
        }
        Ok(found)
    }

    // The list may end here.
    pub fn may_end(&self) -> bool {
        matches!(self, Stage::Uncreated | Stage::Ended)
    }
}
