// Writes the report of the dump that standard input gives.
#![tactic(auto)]

use shown::MOST;
use std::io;
use streams::read_at_most;

fn main(rt: HostRuntime) -> io::Result<()> {
    let mut room = [0u8; MOST];
    let dump = read_at_most(&mut rt.stdin(), &mut room)?;
    shown::report(&mut rt.stdout(), dump)
}
