// Type 13, subtypes 2 to 6: RIB records. m is the record from its header to its last octet.
#![tactic(auto)]

ghost use Rattle.std.specs.Prelude.{◌≡◌, ◌≤◌, Ok};
ghost use Rattle.form_spec.specs.Pass.{whole, times};
ghost use Rattle.page_spec.specs.Rib.{entry, entry_list, prefix, rib, rib_generic};
ghost use Rattle.record_spec.specs.Fields.{routes_of};
ghost use Rattle.record_spec.specs.Fields as show;
ghost use Rattle.record_spec.specs.Answer.{entry_fault, entry_end};
ghost use Rattle.record_spec.specs.Items.{entry_at, Finds};
ghost use Rattle.rib.specs.Tail.{tail};
ghost use Rattle.form_spec.specs.Refusal.{refused};
ghost use Rattle.record_spec.specs.Shown.{Good};

use attr::tile;
use form_spec::Fault;
use octets::{field, left, part, skip};
use record_spec::{Body, Entry, Header, Part, Routes, Scope, Shown};

// The entry that starts at `at`, where the table in force has so many peers.
pub fn entry_at(m: &[u8], at: usize, peers: u64) -> Result<Entry, Fault>
    ensures { (result ≡ entry_at m.now at peers) × Finds (entry peers) m.now at (entry_fault result) (entry_end result) }
{
    let (index, a) = field(m, at, 2)?;
    if peers <= index {
        return Err(Fault {
            number: 13,
            place: at,
        });
    }
    let (originated, b) = field(m, a, 4)?;
    let (n, d) = field(m, b, 2)?;
    let size = n as usize;
    let next = skip(m, d, size)?;
    if !tile(part(m, d, size)) {
        return Err(Fault {
            number: 11,
            place: d,
        });
    }
    let attributes = Part { at: d, size };
    Ok(Entry {
        index,
        originated,
        attributes,
        next,
    })
}

// So many entries, and nothing behind them; then the answer is s.
pub fn entries_at<T: Copy>(m: &[u8], from: usize, count: u64, peers: u64, s: T) -> Result<T, Fault>
    ensures { result ≡ whole (λ fs. Ok s) refused (times count (entry peers)) m.now from }
{
    let mut at = from;
    for _ in 0..count {
        at = entry_at(m, at, peers)?.next;
    }
    if at < m.len() {
        return Err(Fault {
            number: 6,
            place: at,
        });
    }
    Ok(s)
}

// The prefix of at most `most` bits, the count and the entries; `scope` is the family and SAFI, where the record has them.
fn prefix_at(
    m: &[u8],
    at: usize,
    most: u64,
    peers: u64,
    h: Header,
    sequence: u64,
    scope: Option<Scope>,
) -> Shown
    requires { most ≤ 128 }
    ensures { result ≡ whole (λ fs. Good h (tail scope (routes_of sequence m.now fs))) refused (prefix most (entry_list peers)) m.now at }
{
    let (bits, b) = field(m, at, 1)?;
    if most < bits {
        return Err(Fault {
            number: 8,
            place: at,
        });
    }
    let size = ((bits + 7) / 8) as usize;
    let d = skip(m, b, size)?;
    let (count, e) = field(m, d, 2)?;
    let r = Routes {
        sequence,
        bits,
        prefix: Part { at: b, size },
        count,
        entries: Part {
            at: e,
            size: left(m, e),
        },
    };
    entries_at(m, e, count, peers, Some((h, body(scope, r))))
}

fn body(scope: Option<Scope>, r: Routes) -> Body
    ensures { result ≡ tail scope r }
{
    match scope {
        Some(s) => Body::RibGeneric(s, r),
        None => Body::Rib(r),
    }
}

// The message of subtypes 2 to 5, whose prefix has at most `most` bits; it starts at `at` and ends where m ends.
pub fn rib_at(m: &[u8], at: usize, most: u64, peers: u64, h: Header) -> Shown
    requires { most ≤ 128 }
    ensures { result ≡ whole (show.rib h m.now) refused (rib most peers) m.now at }
{
    let (sequence, a) = field(m, at, 4)?;
    prefix_at(m, a, most, peers, h, sequence, None)
}

// The message of subtype 6.
pub fn rib_generic(m: &[u8], at: usize, peers: u64, h: Header) -> Shown
    ensures { result ≡ whole (show.rib_generic h m.now) refused (rib_generic peers) m.now at }
{
    let (sequence, a) = field(m, at, 4)?;
    let (family, b) = field(m, a, 2)?;
    if family < 1 || 2 < family {
        return Err(Fault {
            number: 7,
            place: a,
        });
    }
    let (safi, d) = field(m, b, 1)?;
    if safi < 1 || 2 < safi {
        return Err(Fault {
            number: 7,
            place: b,
        });
    }
    let scope = Some(Scope { family, safi });
    if family <= 1 {
        return prefix_at(m, d, 32, peers, h, sequence, scope);
    }
    prefix_at(m, d, 128, peers, h, sequence, scope)
}
