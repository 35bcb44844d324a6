// What the programs print: of a dump its listing or its report, and of a call its answer and what stands in the room that it was lent.
#![tactic(auto)]

ghost use Rattle.std.specs.Prelude.{◌≡◌, ◌↔◌, true, OnOk, All};
ghost use Rattle.std.specs.Io.KnownBytes.{Appends};
ghost use Rattle.page_spec.specs.Bgp4mp.{longest_message};
ghost use Rattle.listing_spec.specs.Text.{listing};
ghost use Rattle.report_text_spec.specs.Text.{report_text};
ghost use Rattle.shown.specs.Adler.{adler32};

use form_spec::Fault;
use report_text::render;
use std::io::Write;
use std::{fmt, io};

// What stands in each octet of the room that a program lends, before the call.
pub const FILL: u8 = 165;

// How many octets of a dump are read: one more than the longest has that is listed or reported, so that a longer one is told from it.
pub const MOST: usize = 65537;

// The listing of a dump.
pub fn list<W: Write>(to: &mut W, dump: &[u8]) -> io::Result<()>
    ensures { OnOk result (Appends (W.contents to.old) (W.contents to.new) (listing longest_message dump.now)) }
{
    let mut text = [0u8; 524288];
    let n = listing::list(dump, &mut text);
    to.write_all(&text[..n])
}

// The report of a dump.
pub fn report<W: Write>(to: &mut W, dump: &[u8]) -> io::Result<()>
    ensures { OnOk result (Appends (W.contents to.old) (W.contents to.new) (report_text longest_message dump.now)) }
{
    let mut text = [0u8; 2048];
    let n = render(dump, &mut text);
    to.write_all(&text[..n])
}

// The Adler-32, as RFC 1950 has it.
pub fn adler32(octets: &[u8]) -> u64
    ensures { result ≡ adler32 octets.now }
{
    let mut low: u64 = 1;
    let mut high: u64 = 0;
    for octet in octets {
        low = (low + u64::from(*octet)) % 65521;
        high = (high + low) % 65521;
    }
    65536 * high + low
}

// Whether octets of the room are as they were before the call. Without a way out, as `all` has one, many are compared at once.
pub fn is_untouched(rest: &[u8]) -> bool
    ensures { (result ≡ true) ↔ All (λ octet. octet ≡ 165) rest.now }
{
    let mut untouched = true;
    for octet in rest {
        untouched &= *octet == FILL;
    }
    untouched
}

// Octets in hexadecimal digits.
#[derive(Drop)]
struct Hex<'a>(&'a [u8]);

impl fmt::Display for Hex<'_> {
    fn fmt<W: fmt::Write>(&self, f: &mut fmt::Formatter<W>) -> fmt::Result {
        for octet in self.0 {
            write!(f, "{octet:02x}")?;
        }
        Ok(())
    }
}

// The octets that a call wrote: up to `most` of them 32 to a line, of more their Adler-32.
fn octets(rt: &impl Print, written: &[u8], most: usize) -> io::Result<()> {
    if most < written.len() {
        return println!(rt; "adler32={}", adler32(written));
    }
    for line in written.chunks(32) {
        println!(rt; "{}", Hex(line))?;
    }
    Ok(())
}

// What a call answered; how many octets it wrote.
fn told(rt: &impl Print, answer: Result<usize, Fault>) -> io::Result<usize> {
    match answer {
        Ok(n) => {
            println!(rt; "fault=0 place=0 octets={n}")?;
            Ok(n)
        }
        Err(Fault { number, place }) => {
            println!(rt; "fault={number} place={place} octets=0")?;
            Ok(0)
        }
    }
}

// What a call answered, the octets that it wrote, and whether the rest of the room is as it was.
pub fn answer(
    rt: &impl Print,
    answer: Result<usize, Fault>,
    room: &[u8],
    most: usize,
) -> io::Result<()> {
    let n = told(rt, answer)?;
    let (written, rest) = room.split_at(n.min(room.len()));
    octets(rt, written, most)?;
    let state = if is_untouched(rest) { "ok" } else { "touched" };
    println!(rt; "rest={state}")
}
