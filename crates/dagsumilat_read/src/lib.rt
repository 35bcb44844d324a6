// What reading one record shows, as the words of a call's answer.
#![tactic(auto)]

ghost use Rattle.std.specs.Prelude.{◌≡◌};
ghost use Rattle.page_spec.specs.Bgp4mp.{longest_message};
ghost use Rattle.record_spec.specs.One.{read_one};
ghost use Rattle.record_spec.specs.Answer.{no_header, header_of};
ghost use Rattle.dagsumilat_spec.specs.Answers as answers;
ghost use Rattle.dagsumilat_spec.specs.RecordAnswers.{table_by_count};
ghost use Rattle.dagsumilat_spec.specs.ReadWords.{kind_in, kind_of, head_words, contents_words, route_words, peers_words, rib_words, session_words, words_in, body_words, read_words};

use dagsumilat_told::table_of;
use parts::{fault, place};
use record::read_record;
use record_spec::{Body, Header, Part, Peers, Route, Routes, Session, Shown};

fn kind_in(b: Body) -> u64
    ensures { result ≡ kind_in b }
{
    match b {
        Body::Unread(_) => 1,
        Body::TableDump(_) => 2,
        Body::PeerTable(_) => 3,
        Body::Rib(_) => 4,
        Body::RibGeneric(_, _) => 5,
        Body::Change(_, _) => 6,
        Body::Message(_, _) => 7,
    }
}

fn kind_of(x: Shown) -> u64
    ensures { result ≡ kind_of x }
{
    match x {
        Ok(Some((_, b))) => kind_in(b),
        _ => 0,
    }
}

fn no_header() -> Header
    ensures { result ≡ no_header }
{
    Header {
        timestamp: 0,
        ty: 0,
        subtype: 0,
        length: 0,
        microseconds: 0,
    }
}

fn header_of(x: Shown) -> Header
    ensures { result ≡ header_of x }
{
    match x {
        Ok(Some((h, _))) => h,
        _ => no_header(),
    }
}

// ---- the words of a body

fn contents_words(c: Part) -> [u64; 12]
    ensures { result ≡ contents_words c }
{
    [c.at as u64, c.size as u64, 0, 0, 0, 0, 0, 0, 0, 0, 0, 0]
}

fn route_words(r: Route) -> [u64; 12]
    ensures { result ≡ route_words r }
{
    [
        r.view,
        r.sequence,
        r.prefix.at as u64,
        r.prefix.size as u64,
        r.bits,
        r.status,
        r.originated,
        r.address.at as u64,
        r.address.size as u64,
        r.peer,
        r.attributes.at as u64,
        r.attributes.size as u64,
    ]
}

fn peers_words(p: Peers) -> [u64; 12]
    ensures { result ≡ peers_words p }
{
    [
        p.collector,
        p.name.at as u64,
        p.name.size as u64,
        p.count,
        p.peers.at as u64,
        p.peers.size as u64,
        0,
        0,
        0,
        0,
        0,
        0,
    ]
}

// A RIB record; without family and SAFI they are 0.
fn rib_words(r: Routes, family: u64, safi: u64) -> [u64; 12]
    ensures { result ≡ rib_words r family safi }
{
    [
        r.sequence,
        r.bits,
        r.prefix.at as u64,
        r.prefix.size as u64,
        r.count,
        r.entries.at as u64,
        r.entries.size as u64,
        family,
        safi,
        0,
        0,
        0,
    ]
}

// A session, and three words of what it met.
fn session_words(s: Session, a: u64, b: u64, c: u64) -> [u64; 12]
    ensures { result ≡ session_words s a b c }
{
    [
        s.peer,
        s.local,
        s.interface,
        s.family,
        s.theirs.at as u64,
        s.theirs.size as u64,
        s.ours.at as u64,
        s.ours.size as u64,
        a,
        b,
        c,
        0,
    ]
}

fn words_in(b: Body) -> [u64; 12]
    ensures { result ≡ words_in b }
{
    match b {
        Body::Unread(c) => contents_words(c),
        Body::TableDump(r) => route_words(r),
        Body::PeerTable(p) => peers_words(p),
        Body::Rib(r) => rib_words(r, 0, 0),
        Body::RibGeneric(f, r) => rib_words(r, f.family, f.safi),
        Body::Change(s, w) => session_words(s, w.old, w.new, 0),
        Body::Message(s, m) => {
            session_words(s, m.message.at as u64, m.message.size as u64, m.kind)
        }
    }
}

fn body_words(x: Shown) -> [u64; 12]
    ensures { result ≡ body_words x }
{
    match x {
        Ok(Some((_, b))) => words_in(b),
        _ => [0; 12],
    }
}

// ---- all the words

fn head_words(x: Shown) -> [u64; 8]
    ensures { result ≡ head_words x }
{
    let header = header_of(x);
    [
        u64::from(fault(x)),
        place(x) as u64,
        kind_of(x),
        u64::from(header.timestamp),
        u64::from(header.ty),
        u64::from(header.subtype),
        u64::from(header.length),
        u64::from(header.microseconds),
    ]
}

// The record that `octets` start with, where `table` is the number of peers of the table in force.
pub fn read(octets: &[u8], table: u64, answer: &mut [u64; 20])
    ensures { answer.new ≡ read_words answer.old (read_one longest_message (table_by_count table) octets.now) }
{
    let x = read_record(octets, table_of(table));
    let head = head_words(x);
    let body = body_words(x);
    answer[..8].copy_from_slice(&head);
    answer[8..].copy_from_slice(&body);
}
