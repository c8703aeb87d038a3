#![tactic(auto)]

use line::Line;
use outcome::{CallError, Done};
use report::Report;
use std::io::{BufRead, BufReader};
use words::{Kind, Said};
use workplace::{Current, Workplace};

mod byte_range;
mod desk;
mod line;
mod outcome;
mod report;
mod setup;
mod shelf;
mod words;
mod workplace;

fn main(rt: HostRuntime) -> anyhow::Result<()> {
    replay(&rt)
}

fn replay(rt: &HostRuntime) -> anyhow::Result<()> {
    let mut lines: Vec<String> = Vec::new(rt.alloc());
    for line in BufReader::new(rt.alloc(), rt.stdin())?.lines(rt.alloc()) {
        lines.push(line?)?;
    }
    let mut report = Report::new(rt);
    let mut current = Current::Nowhere;
    for (text, number) in lines.iter().zip(1..) {
        let text = text.as_str();
        let words = words::split(rt.alloc(), text)?;
        if !words.is_empty() {
            take(&mut report, &mut current, Line { number, text }, &words)?;
        }
    }
    current.sum_up(rt)?;
    report.end()
}

fn take(
    report: &mut Report<'_>,
    current: &mut Current,
    line: Line<'_>,
    words: &[&str],
) -> anyhow::Result<()> {
    match Said::from_words(words) {
        Said::SetUp(kind) => begin(report, current, line, kind),
        Said::Call(call) => tell(report, line, current.carry_out(call)),
        Said::Other => report.no_call(line),
    }
}

fn begin(
    report: &mut Report<'_>,
    current: &mut Current,
    line: Line<'_>,
    kind: Kind,
) -> anyhow::Result<()> {
    current.sum_up(report.rt)?;
    // First what was set up before goes, so that the two never take memory together.
    *current = Current::Nowhere;
    match setup::set_up(report.rt.alloc(), kind) {
        Ok((begun, told)) => {
            *current = begun;
            report.call(line, &Ok(told))
        }
        Err(error) => tell(report, line, Err(error)),
    }
}

fn tell(
    report: &mut Report<'_>,
    line: Line<'_>,
    came: Result<Done, CallError>,
) -> anyhow::Result<()> {
    match came {
        Ok(done) => report.call(line, &Ok(done)),
        Err(CallError::NotDone(reason)) => report.call(line, &Err(reason)),
        Err(CallError::OutOfMemory(error)) => Err(error.into()),
    }
}
