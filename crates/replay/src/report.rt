use crate::line::Line;
use crate::outcome::Outcome;
use std::fmt;

// What is printed of a list, line by line and at its end.
#[derive(Drop)]
pub struct Report<'a> {
    pub rt: &'a HostRuntime,
    calls: u64,
    not_done: u64,
    // The numbers of the lines that are no call.
    others: Vec<usize>,
}

impl<'a> Report<'a> {
    pub fn new(rt: &'a HostRuntime) -> Report<'a> {
        Report {
            rt,
            calls: 0,
            not_done: 0,
            others: Vec::new(rt.alloc()),
        }
    }

    pub fn call(&mut self, line: Line<'_>, outcome: &Outcome) -> anyhow::Result<()> {
        self.calls = self.calls.saturating_add(1);
        match outcome {
            Ok(done) => self.tell(line, done),
            Err(reason) => {
                self.not_done = self.not_done.saturating_add(1);
                self.tell(line, reason)
            }
        }
    }

    pub fn no_call(&mut self, line: Line<'_>) -> anyhow::Result<()> {
        self.others.push(line.number)?;
        self.tell(line, &"no call: nothing was done")
    }

    fn tell(&self, line: Line<'_>, what: &impl fmt::Display) -> anyhow::Result<()> {
        println!(self.rt; "{line}\n    {what}")?;
        Ok(())
    }

    pub fn end(&self) -> anyhow::Result<()> {
        println!(self.rt; "{} calls, {} of them not done", self.calls, self.not_done)?;
        for number in &self.others {
            println!(self.rt; "line {number} is no call")?;
        }
        Ok(())
    }
}
