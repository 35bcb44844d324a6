// Lists each file that an argument names, after a line with its name.
#![tactic(auto)]

use shown::MOST;
use std::io;
use streams::{each_named, read_at_most};

fn main(rt: HostRuntime) -> io::Result<()> {
    each_named(&rt, |mut file| {
        let mut room = [0u8; MOST];
        let dump = read_at_most(&mut file, &mut room)?;
        shown::list(&mut rt.stdout(), dump)
    })
}
