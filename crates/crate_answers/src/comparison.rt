use crate::call::{Call, Creation};
use crate::line::{Content, Line};
use crate::report::Report;
use crate::stage::Stage;
use crate::stop::Stop;
use std::alloc::Global;

// What the lists so far want next.
#[derive(Clone, Copy, Debug)]
enum Awaited<'a> {
    // Nothing but a list, since there was none.
    List,
    // The creation of the list that began with this line.
    Creation(Line<'a>),
    Calls,
}

// The lists, compared line by line, so that what a line says is not kept.
#[derive(Drop)]
pub struct Comparison<'rt, 'a> {
    heap: Global,
    report: Report<'rt>,
    awaited: Awaited<'a>,
    stage: Stage,
    // The number of the line that was taken last.
    last: u64,
}

impl<'rt, 'a> Comparison<'rt, 'a> {
    pub fn new(rt: &'rt HostRuntime) -> Comparison<'rt, 'a> {
        Comparison {
            heap: rt.alloc(),
            report: Report::new(rt),
            awaited: Awaited::List,
            stage: Stage::Uncreated,
            last: 0,
        }
    }

    pub fn take(&mut self, line: Line<'a>) -> Result<(), Stop> {
        let content = Content::read(self.heap, line.text)?;
        let before = self.last;
        self.last = line.number;
        match (self.awaited, &content) {
            (_, Content::List(number)) => {
                self.end_list(before)?;
                self.begin_list(line, *number);
                Ok(())
            }
            (Awaited::List, _) => self.report.fault(line, "no list begins here"),
            (Awaited::Creation(_), Content::Call(Call::Create(creation))) => {
                self.awaited = Awaited::Calls;
                self.create(line, *creation)
            }
            (Awaited::Creation(head), _) => {
                self.awaited = Awaited::Calls;
                self.report.fault(head, "no create follows")?;
                self.carry_out(line, &content)
            }
            (Awaited::Calls, _) => self.carry_out(line, &content),
        }
    }

    fn begin_list(&mut self, head: Line<'a>, number: u64) {
        self.report.begin(number);
        self.awaited = Awaited::Creation(head);
        self.stage = Stage::Uncreated;
    }

    fn create(&mut self, line: Line<'a>, creation: Creation) -> Result<(), Stop> {
        let found = self
            .stage
            .create(self.heap, creation, &mut self.report.counts);
        self.report.call(line, found)
    }

    // A line of a list after its creation.
    fn carry_out(&mut self, line: Line<'a>, content: &Content) -> Result<(), Stop> {
        match content {
            Content::Call(_) if self.report.is_lost() => {
                self.report.skip();
                Ok(())
            }
            Content::Call(call) => {
                let found = self.stage.carry_out(call, &mut self.report.counts);
                self.report.call(line, found)
            }
            _ => self.report.fault(line, "no call"),
        }
    }

    // Ends the list whose last line has that number.
    fn end_list(&mut self, last: u64) -> Result<(), Stop> {
        match self.awaited {
            Awaited::List => Ok(()),
            Awaited::Creation(head) => self.report.fault(head, "no create follows"),
            Awaited::Calls if self.report.is_lost() || self.stage.may_end() => Ok(()),
            Awaited::Calls => {
                let last = Line {
                    number: last,
                    text: "the last line of a list",
                };
                self.report.fault(last, "no end was called")
            }
        }
    }

    pub fn end(&mut self) -> anyhow::Result<()> {
        self.end_list(self.last)?;
        self.report.end()
    }
}
