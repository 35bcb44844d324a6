// Document 01's answers for what reading one record showed, and its parts, where they lie.
#![tactic(auto)]

ghost use Rattle.std.specs.Prelude.{◌≡◌};
ghost use Rattle.record_spec.specs.Answer as answer;

use form_spec::Fault;
use octets::part;
use record_spec::{Body, Entry, Header, Part, Peer, Shown, Table};

// The fault's number, 0 for none.
pub fn fault(r: Shown) -> u8
    ensures { result ≡ answer.fault r }
{
    match r {
        Ok(_) => 0,
        Err(f) => f.number,
    }
}

fn end(h: Header) -> usize
    ensures { result ≡ answer.end h }
{
    12 + h.length as usize
}

// The fault's place, or where the record ends, counted from its header.
pub fn place(r: Shown) -> usize
    ensures { result ≡ answer.place r }
{
    match r {
        Ok(None) => 0,
        Ok(Some((h, _))) => end(h),
        Err(f) => f.place,
    }
}

// The record's time in microseconds.
pub fn time(h: Header) -> u64
    ensures { result ≡ answer.time h }
{
    u64::from(h.timestamp) * 1000000 + u64::from(h.microseconds)
}

// A part of the octets that were read.
pub fn within(m: &[u8], p: Part) -> &[u8]
    ensures { answer.Lies m.entry p result }
{
    part(m, p.at, p.size)
}

fn carried_in(m: &[u8], b: Body) -> &[u8]
    ensures { answer.Lies m.entry (answer.carried_in b) result }
{
    match b {
        Body::Unread(p) => within(m, p),
        Body::TableDump(t) => within(m, t.attributes),
        Body::PeerTable(t) => within(m, t.name),
        Body::Rib(_) => part(m, 0, 0),
        Body::RibGeneric(_, _) => part(m, 0, 0),
        Body::Change(_, _) => part(m, 0, 0),
        Body::Message(_, b) => within(m, b.message),
    }
}

// The part that a record carries: unread contents, attributes, view name or BGP message.
pub fn carried(m: &[u8], r: Shown) -> &[u8]
    ensures { answer.Lies m.entry (answer.carried r) result }
{
    match r {
        Ok(Some((_, b))) => carried_in(m, b),
        _ => part(m, 0, 0),
    }
}

// The table in force behind a record, where t was in force before it.
pub fn table_behind(t: Table, b: Body) -> Table
    ensures { result ≡ answer.table_behind t b }
{
    match b {
        Body::PeerTable(p) => Some(p.count),
        _ => t,
    }
}

// An entry's attributes.
pub fn attributes(m: &[u8], e: Result<Entry, Fault>) -> &[u8]
    ensures { answer.Lies m.entry (answer.attributes_in e) result }
{
    match e {
        Ok(e) => within(m, e.attributes),
        Err(_) => part(m, 0, 0),
    }
}

// A peer's address.
pub fn address(m: &[u8], p: Result<Peer, Fault>) -> &[u8]
    ensures { answer.Lies m.entry (answer.address_in p) result }
{
    let Ok(p) = p else {
        return part(m, 0, 0);
    };
    within(m, p.address)
}
