use crate::answer::Answer;
use crate::finding::{Difference, Finding, Trouble};
use crate::reason::Reason;
use std::fmt;

// How many answers of each kind were compared, and agree.
#[derive(Clone, Copy, Default)]
pub struct Counts {
    creations: u64,
    starts: u64,
    refusals: u64,
    hints: u64,
    spent_ids: u64,
    impossible: u64,
    left_to_store: u64,
    returns: u64,
    bucket_sizes: u64,
}

impl Counts {
    pub fn compare(&mut self, recorded: Answer, came: Answer) -> Result<Finding, Trouble> {
        if !recorded.agrees_with(came) {
            return Err(Trouble::Differs(Difference { recorded, came }));
        }
        count(self.counter(came));
        Ok(Finding::Same)
    }

    fn counter(&mut self, came: Answer) -> &mut u64 {
        match came {
            Answer::Creation(_) => &mut self.creations,
            Answer::Growth(_) => &mut self.hints,
            Answer::Allocation(Ok(_)) => &mut self.starts,
            Answer::Allocation(Err(Reason::MaxReallocationsReached)) => &mut self.spent_ids,
            Answer::Allocation(Err(Reason::InternalError)) => &mut self.impossible,
            Answer::Allocation(Err(_)) => &mut self.refusals,
            Answer::LeftToStore => &mut self.left_to_store,
            Answer::Return(_) => &mut self.returns,
            Answer::BucketSize(_) => &mut self.bucket_sizes,
        }
    }

    // Those of which the whole answer was compared, each with the words that it is printed with.
    fn compared(&self) -> [(u64, &'static str); 8] {
        [
            (self.creations, "creations"),
            (self.starts, "starts"),
            (self.refusals, "refusals"),
            (self.hints, "hints"),
            (self.spent_ids, "growths without an id left"),
            (self.impossible, "growths that no store can make"),
            (self.returns, "returns"),
            (self.bucket_sizes, "bucket sizes"),
        ]
    }

    fn total(&self) -> u64 {
        self.compared()
            .iter()
            .fold(0, |total, (counted, _)| total.saturating_add(*counted))
    }
}

impl fmt::Display for Counts {
    fn fmt<W: fmt::Write>(&self, f: &mut fmt::Formatter<W>) -> fmt::Result {
        let total = self.total();
        writeln!(f, "{total} answers compared, and the same:")?;
        for (counted, what) in self.compared() {
            writeln!(f, "    {counted} {what}")?;
        }
        write!(
            f,
            "{} denials of the store, compared no further than that a growth was wanted",
            self.left_to_store
        )
    }
}

pub fn count(n: &mut u64) {
    *n = n.saturating_add(1);
}
