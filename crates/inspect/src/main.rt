// Reads update texts in hexadecimal, one to a line, and shows what each says or why it is refused.
#![tactic(auto)]

mod fields;
mod report;

use crate::report::{Report, Tally, Update};
use std::io::{BufRead, BufReader};
use std::iter::successors;

fn run(rt: &HostRuntime) -> anyhow::Result<()> {
    let heap = rt.alloc();
    let mut tally = Tally::new();
    let lines = BufReader::new(heap, rt.stdin())?.split(heap, b'\n');
    // A range would end the reading behind its last number: here that one stands before every further line.
    let numbers = successors(Some(1u64), |number| Some(number.saturating_add(1)));
    for (number, line) in numbers.zip(lines) {
        let line = line?;
        let mut room = vec![in heap; 0u8; line.len() / 2]?;
        let report = Report(Update::of_line(line.as_slice(), room.as_mut_slice()));
        tally.count(report.0);
        println!(rt; "{number}: {report}")?;
    }
    println!(rt; "{tally}")?;
    Ok(())
}

fn main(rt: HostRuntime) -> anyhow::Result<()> {
    run(&rt)
}
