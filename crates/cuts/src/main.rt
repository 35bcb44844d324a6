// Runs the cut that each file holds which an argument names: start and end of the window (8 octets each), the room lent (4), the
// number of muted AS numbers (2), these (4 each), and the dump. Prints the answer, the octets written (of more than 65,536 their
// Adler-32, as RFC 1950 has it), and whether the rest of the room is as it was.
#![tactic(auto)]

use octets::number;
use shown::FILL;
use std::fs::File;
use std::io;
use streams::{each_named, read_at_most};

// The largest file, and the largest room.
const MOST: usize = 524288;

// The AS numbers in octets, 4 each, at the start of the room.
fn numbers<'a>(octets: &[u8], room: &'a mut [u32; 65535]) -> &'a [u32] {
    let count = (octets.len() / 4).min(65535);
    for (to, x) in room.iter_mut().zip(octets.chunks_exact(4)) {
        *to = number(x, 0, 4) as u32;
    }
    &room[..count]
}

// A case that is too short for what it says, or asks for too much room, is passed over.
fn case(
    rt: &impl Print,
    octets: &[u8],
    mutes: &mut [u32; 65535],
    out: &mut [u8],
) -> io::Result<()> {
    let Some((head, behind)) = octets.split_at_checked(22) else {
        return Ok(());
    };
    let room = number(head, 16, 4) as usize;
    let count = number(head, 20, 2) as usize;
    let Some((muted, dump)) = behind.split_at_checked(4 * count) else {
        return Ok(());
    };
    if out.len() < room {
        return Ok(());
    }
    let answer = cut::cut(
        dump,
        number(head, 0, 8),
        number(head, 8, 8),
        numbers(muted, mutes),
        &mut out[..room],
    );
    shown::answer(rt, answer, out, 65536)
}

// The case that a file holds.
fn case_of(
    rt: &impl Print,
    mut file: File,
    room: &mut [u8; MOST],
    mutes: &mut [u32; 65535],
    out: &mut [u8; MOST],
) -> io::Result<()> {
    case(rt, read_at_most(&mut file, room)?, mutes, out)
}

fn one(rt: &HostRuntime, file: File) -> io::Result<()> {
    let mut room = [0u8; MOST];
    let mut mutes = [0u32; 65535];
    let mut out = [FILL; MOST];
    case_of(rt, file, &mut room, &mut mutes, &mut out)
}

fn main(rt: HostRuntime) -> io::Result<()> {
    each_named(&rt, |file| one(&rt, file))
}
