// Reading one record.
#![tactic(auto)]

ghost use Rattle.std.specs.Prelude.{◌≡◌, ◌≤◌, length, Ok};
ghost use Rattle.page_spec.specs.Sane.{Sane};
ghost use Rattle.page_spec.specs.Bgp4mp.{longest_message};
ghost use Rattle.record_spec.specs.One.{header, micro_at, shown_unread, shown_rib, shown_generic, shown_change, shown_message, shown_as, whole_record, read_one};
ghost use Rattle.record_spec.specs.Reads.{Reads};
ghost use Rattle.record.specs.Small.{Small};
ghost use Rattle.record.specs.Stamp.{stamp_of};

use bgp::{bgp_message, state_change};
use form_spec::Fault;
use kind::kind_of;
use octets::{field, left, number};
use page_spec::{Kind, LONGEST_MESSAGE};
use peers::peer_table;
use record_spec::{Body, Header, Part, Shown, Table};
use rib::{rib_at, rib_generic};
use table_dump::table_dump;

fn header_of(m: &[u8], microseconds: u32) -> Header
    requires { 12 ≤ length m.now }
    ensures { result ≡ header m.now microseconds }
{
    Header {
        timestamp: number(m, 0, 4) as u32,
        ty: number(m, 4, 2) as u16,
        subtype: number(m, 6, 2) as u16,
        length: number(m, 8, 4) as u32,
        microseconds,
    }
}

// Microseconds of `micro` octets, and where the message goes on.
fn micro_at(m: &[u8], micro: usize) -> Result<(u64, usize), Fault>
    requires { micro ≤ 4 }
    ensures { (result ≡ micro_at m.now micro) × Small result }
{
    if micro == 0 {
        return Ok((0, 12));
    }
    field(m, 12, micro)
}

// The header with its microseconds, and where the message goes on.
fn stamp_at(m: &[u8], micro: usize) -> Result<(Header, usize), Fault>
    requires in_bounds { 12 ≤ length m.now }
    requires micro_bound { micro ≤ 4 }
    ensures { result ≡ stamp_of m.now (micro_at m.now micro) }
{
    let (microseconds, at) = micro_at(m, micro)?;
    Ok((header_of(m, microseconds as u32), at))
}

fn unread(m: &[u8], micro: usize) -> Shown
    requires in_bounds { 12 ≤ length m.now }
    requires micro_bound { micro ≤ 4 }
    ensures { result ≡ shown_unread m.now micro }
{
    let (h, at) = stamp_at(m, micro)?;
    let contents = Part {
        at,
        size: left(m, at),
    };
    Ok(Some((h, Body::Unread(contents))))
}

fn change(m: &[u8], micro: usize, width: usize) -> Shown
    requires in_bounds { 12 ≤ length m.now }
    requires micro_bound { (micro ≤ 4) × (width ≤ 8) }
    ensures { result ≡ shown_change m.now micro width }
{
    let (h, at) = stamp_at(m, micro)?;
    state_change(m, at, width, h)
}

fn message(m: &[u8], micro: usize, width: usize, longest: u64) -> Shown
    requires in_bounds { 12 ≤ length m.now }
    requires micro_bound { (micro ≤ 4) × (width ≤ 8) }
    ensures { result ≡ shown_message longest m.now micro width }
{
    let (h, at) = stamp_at(m, micro)?;
    bgp_message(m, at, width, longest, h)
}

fn rib(m: &[u8], bits: u64, t: Table) -> Shown
    requires in_bounds { 12 ≤ length m.now }
    requires bits_bound { bits ≤ 128 }
    ensures { result ≡ shown_rib t m.now bits }
{
    let Some(peers) = t else {
        return Err(Fault {
            number: 12,
            place: 6,
        });
    };
    rib_at(m, 12, bits, peers, header_of(m, 0))
}

fn generic(m: &[u8], t: Table) -> Shown
    requires { 12 ≤ length m.now }
    ensures { result ≡ shown_generic t m.now }
{
    let Some(peers) = t else {
        return Err(Fault {
            number: 12,
            place: 6,
        });
    };
    rib_generic(m, 12, peers, header_of(m, 0))
}

// A record of a kind; m runs from its header to its last octet.
fn show(m: &[u8], k: Kind, t: Table, longest: u64) -> Shown
    requires in_bounds { 12 ≤ length m.now }
    requires sane { Sane (Ok k) }
    ensures { result ≡ shown_as longest t m.now (Ok k) }
{
    match k {
        Kind::Unread(micro) => unread(m, micro),
        Kind::TableDump(size) => table_dump(m, 12, size, header_of(m, 0)),
        Kind::PeerTable => peer_table(m, 12, header_of(m, 0)),
        Kind::Rib(bits) => rib(m, bits, t),
        Kind::RibGeneric => generic(m, t),
        Kind::Change(micro, width) => change(m, micro, width),
        Kind::Message(micro, width) => message(m, micro, width, longest),
    }
}

fn whole_record(m: &[u8], t: Table, longest: u64) -> Shown
    requires { 12 ≤ length m.now }
    ensures { result ≡ whole_record longest t m.now }
{
    let k = kind_of(number(m, 4, 2), number(m, 6, 2))?;
    show(m, k, t, longest)
}

// The record that starts s, where the table t is told and a BGP message has at most `longest` octets. Octets behind it are not looked at.
pub fn read_with(s: &[u8], t: Table, longest: u64) -> Shown
    ensures { result ≡ read_one longest t s.now }
{
    if s.is_empty() {
        return Ok(None);
    }
    if s.len() < 12 {
        return Err(Fault {
            number: 1,
            place: 0,
        });
    }
    let length = number(s, 8, 4) as usize;
    if s.len() - 12 < length {
        return Err(Fault {
            number: 2,
            place: 0,
        });
    }
    let end = 12 + length;
    whole_record(&s[0..end], t, longest)
}

// The same up to the longest BGP message of today.
pub fn read_record(s: &[u8], t: Table) -> Shown
    ensures { Reads longest_message t s.now result }
{
    read_with(s, t, LONGEST_MESSAGE)
}
