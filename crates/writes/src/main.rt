// Runs the writer that each file holds which an argument names: which one (1 octet), the room lent (4), ten numbers (8 each), the
// sizes of three parts (4 each), and the parts. Numbers and parts are the writer's, in its order; a time is three numbers
// (whether there are microseconds, seconds, microseconds), a table two (whether there is one, its peers). Prints the answer,
// the octets written, and whether the rest of the room is as it was.
#![tactic(auto)]

use dagsumilat_told::time_of;
use form_spec::Fault;
use octets::number;
use record_spec::Table;
use shown::FILL;
use std::fs::File;
use std::{array, io};
use streams::{each_named, read_at_most};
use write_bgp::{write_change, write_message};
use write_peers::write_peer_table;
use write_rib::{write_rib, write_rib_generic};
use write_table_dump::write_table_dump;
use write_unread::write_unread;

// The largest file, and the largest room.
const MOST: usize = 131072;

// What a file holds.
#[derive(Drop)]
struct Case<'a> {
    writer: u8,
    room: usize,
    numbers: [u64; 10],
    parts: [&'a [u8]; 3],
}

// The first octets, and those behind them; fewer where there are fewer.
fn split(octets: &[u8], size: u64) -> (&[u8], &[u8]) {
    octets.split_at((size as usize).min(octets.len()))
}

impl<'a> Case<'a> {
    // None where the octets end before the parts.
    fn read(octets: &'a [u8]) -> Option<Case<'a>> {
        let (head, behind) = octets.split_first_chunk::<97>()?;
        let (first, behind) = split(behind, number(head, 85, 4));
        let (second, behind) = split(behind, number(head, 89, 4));
        let (third, _) = split(behind, number(head, 93, 4));
        Some(Case {
            writer: head[0],
            room: number(head, 1, 4) as usize,
            numbers: array::from_fn(|i| number(head, 5 + 8 * i, 8)),
            parts: [first, second, third],
        })
    }

    fn unread(&self, out: &mut [u8]) -> Result<usize, Fault> {
        let [micro, seconds, micros, ty, subtype, ..] = self.numbers;
        let [contents, ..] = self.parts;
        write_unread(time_of(seconds, micro, micros), ty, subtype, contents, out)
    }

    fn table_dump(&self, out: &mut [u8]) -> Result<usize, Fault> {
        let [
            timestamp,
            subtype,
            view,
            sequence,
            bits,
            status,
            originated,
            peer,
            ..
        ] = self.numbers;
        let [prefix, address, attributes] = self.parts;
        write_table_dump(
            timestamp, subtype, view, sequence, prefix, bits, status, originated, address, peer,
            attributes, out,
        )
    }

    fn peer_table(&self, out: &mut [u8]) -> Result<usize, Fault> {
        let [timestamp, collector, count, ..] = self.numbers;
        let [name, peers, ..] = self.parts;
        write_peer_table(timestamp, collector, name, count, peers, out)
    }

    fn rib(&self, out: &mut [u8]) -> Result<usize, Fault> {
        let [timestamp, subtype, held, of, sequence, bits, count, ..] = self.numbers;
        let [prefix, entries, ..] = self.parts;
        write_rib(
            timestamp,
            subtype,
            table(held, of),
            sequence,
            bits,
            prefix,
            count,
            entries,
            out,
        )
    }

    fn rib_generic(&self, out: &mut [u8]) -> Result<usize, Fault> {
        let [timestamp, held, of, sequence, family, safi, bits, count, ..] = self.numbers;
        let [prefix, entries, ..] = self.parts;
        write_rib_generic(
            timestamp,
            table(held, of),
            sequence,
            family,
            safi,
            bits,
            prefix,
            count,
            entries,
            out,
        )
    }

    fn change(&self, out: &mut [u8]) -> Result<usize, Fault> {
        let [
            micro,
            seconds,
            micros,
            subtype,
            peer,
            local,
            interface,
            family,
            old,
            new,
        ] = self.numbers;
        let [theirs, ours, ..] = self.parts;
        let time = time_of(seconds, micro, micros);
        write_change(
            time, subtype, peer, local, interface, family, theirs, ours, old, new, out,
        )
    }

    fn message(&self, out: &mut [u8]) -> Result<usize, Fault> {
        let [
            micro,
            seconds,
            micros,
            subtype,
            peer,
            local,
            interface,
            family,
            ..
        ] = self.numbers;
        let [theirs, ours, message] = self.parts;
        let time = time_of(seconds, micro, micros);
        write_message(
            time, subtype, peer, local, interface, family, theirs, ours, message, out,
        )
    }

    // By number: 6 to 255 all mean the last writer, so an enum would be longer than this.
    fn write(&self, out: &mut [u8]) -> Result<usize, Fault> {
        match self.writer {
            0 => self.unread(out),
            1 => self.table_dump(out),
            2 => self.peer_table(out),
            3 => self.rib(out),
            4 => self.rib_generic(out),
            5 => self.change(out),
            _ => self.message(out),
        }
    }
}

// The table in force; `held` is 0 for none.
fn table(held: u64, peers: u64) -> Table {
    if held == 0 {
        return None;
    }
    Some(peers)
}

// A case that is too short, or asks for too much room, is passed over.
fn run(rt: &impl Print, octets: &[u8], out: &mut [u8]) -> io::Result<()> {
    let Some(case) = Case::read(octets) else {
        return Ok(());
    };
    if out.len() < case.room {
        return Ok(());
    }
    let answer = case.write(&mut out[..case.room]);
    shown::answer(rt, answer, out, MOST)
}

fn one(rt: &HostRuntime, mut file: File) -> io::Result<()> {
    let mut room = [0u8; MOST];
    let mut out = [FILL; MOST];
    run(rt, read_at_most(&mut file, &mut room)?, &mut out)
}

fn main(rt: HostRuntime) -> io::Result<()> {
    each_named(&rt, |file| one(&rt, file))
}
