// Adds a dump to a report in each file that an argument names: the report's 39 numbers (8 octets each), then the dump. Prints the
// dump's own report as the program `report` does, the answer, and the report afterwards.
#![tactic(auto)]

use octets::number;
use report_add::add;
use report_spec::Added;
use std::{array, io};
use streams::{each_named, read_at_most};

// The largest file.
const MOST: usize = 131072;

// The report that the first octets hold.
fn lent(octets: &[u8; 312]) -> [u64; 39] {
    array::from_fn(|i| number(octets, 8 * i, 8))
}

fn answer(rt: &impl Print, answer: Added) -> io::Result<()> {
    println!(rt; "answer={} {}", answer.fault, answer.place)
}

// The numbers of a report on one line.
fn numbers(rt: &impl Print, report: &[u64; 39]) -> io::Result<()> {
    print!(rt; "{}", report[0])?;
    for n in &report[1..] {
        print!(rt; " {n}")?;
    }
    println!(rt)
}

// A case that is too short for a report is passed over.
fn case(rt: &HostRuntime, octets: &[u8]) -> io::Result<()> {
    let Some((head, dump)) = octets.split_first_chunk::<312>() else {
        return Ok(());
    };
    shown::report(&mut rt.stdout(), dump)?;
    let mut report = lent(head);
    answer(rt, add(dump, &mut report))?;
    numbers(rt, &report)
}

fn main(rt: HostRuntime) -> io::Result<()> {
    each_named(&rt, |mut file| {
        let mut room = [0u8; MOST];
        case(&rt, read_at_most(&mut file, &mut room)?)
    })
}
