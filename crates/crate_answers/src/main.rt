#![tactic(auto)]

use comparison::Comparison;
use line::Line;
use std::fs;

mod answer;
mod call;
mod comparison;
mod counts;
mod finding;
mod line;
mod reason;
mod report;
mod stage;
mod stop;
mod subject;
mod words;

// The answers of the Rust crate, in the folder that the program is run in.
const LISTS: &str = "lists.txt";

fn main(rt: HostRuntime) -> anyhow::Result<()> {
    compare(&rt)
}

fn compare(rt: &HostRuntime) -> anyhow::Result<()> {
    let text = fs::read_to_string(rt, LISTS)?;
    let mut comparison = Comparison::new(rt);
    for (text, number) in text.as_str().lines().zip(1..) {
        comparison.take(Line { number, text })?;
    }
    comparison.end()
}
