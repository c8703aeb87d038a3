use crate::counts::{Counts, count};
use crate::finding::{Difference, Finding, Trouble};
use crate::line::Line;
use crate::stop::Stop;
use anyhow::ensure;
use std::fmt;

// How many differences and faults are printed; all are counted.
const PRINTED: u64 = 20;

#[derive(Clone, Copy, Default)]
struct Totals {
    lists: u64,
    calls: u64,
    passed_over: u64,
    skipped: u64,
    differing: u64,
    // Lines that are no call, or that no list may have there.
    faults: u64,
}

impl Totals {
    fn troubles(&self) -> u64 {
        self.differing.saturating_add(self.faults)
    }
}

// What is printed of the lists, where they differ and at their end.
#[derive(Drop)]
pub struct Report<'a> {
    rt: &'a HostRuntime,
    pub counts: Counts,
    totals: Totals,
    // The number of the list.
    list: u64,
    // A difference or a fault was found in the list, so nothing is known of what follows there. Beside the number, since a
    // line before the first list can be at fault too.
    lost: bool,
}

impl<'a> Report<'a> {
    pub fn new(rt: &'a HostRuntime) -> Report<'a> {
        Report {
            rt,
            counts: Counts::default(),
            totals: Totals::default(),
            list: 0,
            lost: false,
        }
    }

    pub fn begin(&mut self, list: u64) {
        count(&mut self.totals.lists);
        self.list = list;
        self.lost = false;
    }

    pub fn is_lost(&self) -> bool {
        self.lost
    }

    // A call that nothing can be said of any more.
    pub fn skip(&mut self) {
        count(&mut self.totals.calls);
        count(&mut self.totals.skipped);
    }

    pub fn call(&mut self, line: Line<'_>, found: Result<Finding, Trouble>) -> Result<(), Stop> {
        count(&mut self.totals.calls);
        match found {
            Ok(Finding::Same) => Ok(()),
            Ok(Finding::PassedOver) => {
                count(&mut self.totals.passed_over);
                Ok(())
            }
            Err(Trouble::Differs(difference)) => self.differ(line, difference),
            Err(Trouble::Misplaced) => self.fault(line, "no list may have this call here"),
            Err(Trouble::OutOfMemory(error)) => Err(error.into()),
        }
    }

    fn differ(&mut self, line: Line<'_>, difference: Difference) -> Result<(), Stop> {
        count(&mut self.totals.differing);
        let list = self.list;
        self.lose(format_args!("list {list}, {line}\n    {difference}"))
    }

    pub fn fault(&mut self, line: Line<'_>, why: &str) -> Result<(), Stop> {
        count(&mut self.totals.faults);
        self.lose(format_args!("{line}\n    {why}"))
    }

    fn lose(&mut self, message: impl fmt::Display + Drop) -> Result<(), Stop> {
        self.lost = true;
        if self.totals.troubles() <= PRINTED {
            println!(self.rt; "{message}")?;
        }
        Ok(())
    }

    pub fn end(&self) -> anyhow::Result<()> {
        println!(self.rt; "{self}")?;
        ensure!(
            self.totals.troubles() == 0,
            "the recorded answers are not met"
        );
        Ok(())
    }
}

impl fmt::Display for Report<'_> {
    fn fmt<W: fmt::Write>(&self, f: &mut fmt::Formatter<W>) -> fmt::Result {
        let Totals {
            lists,
            calls,
            passed_over,
            skipped,
            differing,
            faults,
        } = self.totals;
        let counts = self.counts;
        writeln!(f, "{lists} lists with {calls} calls")?;
        writeln!(f, "{counts}")?;
        writeln!(
            f,
            "{passed_over} calls passed over, which take more than an allocator"
        )?;
        writeln!(f, "{faults} lines that no list may have")?;
        writeln!(f, "{differing} answers differ")?;
        write!(
            f,
            "{skipped} calls skipped, behind such a line or answer of their list"
        )
    }
}
