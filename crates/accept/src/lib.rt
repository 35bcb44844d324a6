// Whether a record is good, asked in few steps and in no order: a yes is sure, and whatever is not sure goes to the reader, which
// says what is wrong with it. m is the record from its header to its last octet.
#![tactic(auto)]

ghost use Rattle.std.specs.Prelude.{◌≡◌, true, cond, ℕ, ◌+◌, ◌≤◌, length, IfSome};
ghost use Rattle.form_spec.specs.Pass.{times};
ghost use Rattle.form_spec.specs.Words.{in_range};
ghost use Rattle.page_spec.specs.Bgp4mp.{session, state_change, message};
ghost use Rattle.page_spec.specs.Rib.{prefix, entry, entry_list, rib_generic};
ghost use Rattle.page_spec.specs.Peers.{peer};
ghost use Rattle.page_spec.specs.TableDump.{table_dump};
ghost use Rattle.page_spec.specs.Layout.{kind12, kind13, kind16};
ghost use Rattle.page_spec.specs.Chosen.{PeerTable};
ghost use Rattle.record_spec.specs.One.{shown_as, whole_record};
ghost use Rattle.accept_laws.specs.Runs.{Through, SessionTo, WithTable};
ghost use Rattle.accept_spec.specs.Sure.{Sure, Yes, micro_octets};
ghost use Rattle.accept_spec.specs.declared.Accepted.TheVariants as answer;
ghost use Rattle.record_spec.specs.Table as told;

use accept_spec::Accepted;
use attr::tile;
use look::{as_width, count, name_end, peer_end};
use octets::number;
use record_spec::Table;
use text::is_text;

// ---- types 16 and 17

// Where a session ends that starts at `at`, with AS numbers of `width` octets, where it is good. The addresses have 8 octets or
// 32, computed from the family: neighbouring records differ in it, and a branch would be mispredicted.
fn session_end(m: &[u8], at: usize, width: usize) -> Option<usize>
    requires { (at ≤ 16) × (width ≤ 4) }
    ensures { IfSome result (λ end. (end ≤ 60) × SessionTo width m.now at end) }
{
    let head = at + 2 * width + 4;
    if m.len() < head {
        return None;
    }
    let family = number(m, head - 2, 2) as usize;
    if family == 0 || 2 < family {
        return None;
    }
    Some(head + 24 * family - 16)
}

fn message(m: &[u8], at: usize, width: usize, longest: u64) -> bool
    requires { (at ≤ 16) × (width ≤ 4) }
    ensures { result ≡ true → Through (session width (message longest)) m.now at }
{
    let Some(from) = session_end(m, at, width) else {
        return false;
    };
    if m.len() < from + 19 {
        return false;
    }
    let n = number(m, from + 16, 2);
    if n as usize != m.len() - from {
        return false;
    }
    n <= longest
}

fn state(n: u64) -> bool
    ensures { result ≡ true → in_range 1 n 6 ≡ true }
{
    1 <= n && n <= 6
}

fn change(m: &[u8], at: usize, width: usize) -> bool
    requires { (at ≤ 16) × (width ≤ 4) }
    ensures { result ≡ true → Through (session width state_change) m.now at }
{
    let Some(from) = session_end(m, at, width) else {
        return false;
    };
    if m.len() != from + 4 {
        return false;
    }
    state(number(m, from, 2)) && state(number(m, from + 2, 2))
}

// The session starts at `at`, behind the microseconds.
fn session(m: &[u8], at: usize, subtype: u64, longest: u64) -> bool
    requires { at ≤ 16 }
    ensures { (t : told.Table) (micro : ℕ) → at ≡ 12 + micro → Yes m.now t (shown_as longest t m.now (kind16 micro subtype)) result }
{
    match subtype {
        0 | 5 => change(m, at, as_width(subtype)),
        1 | 4 | 6 | 7 => message(m, at, as_width(subtype), longest),
        _ => false,
    }
}

// The octets of microseconds that a record of type 16 or 17 has.
fn micro_of(ty: u64) -> usize
    ensures { (result ≡ micro_octets ty) × (result ≤ 4) }
{
    if ty == 17 {
        return 4;
    }
    0
}

// ---- type 13

// So many entries, and nothing behind them.
fn entries(m: &[u8], from: usize, entry_count: u64, peers: u64) -> bool
    requires { from ≤ length m.now }
    ensures { result ≡ true → Through (times entry_count (entry peers)) m.now from }
{
    if m.len() < 8 {
        return false;
    }
    let last = m.len() - 8;
    let mut at = from;
    for _ in 0..entry_count {
        if last < at {
            return false;
        }
        let first = at + 8;
        if peers <= number(m, at, 2) {
            return false;
        }
        let next = first + number(m, at + 6, 2) as usize;
        if m.len() < next {
            return false;
        }
        if !tile(&m[first..next]) {
            return false;
        }
        at = next;
    }
    at == m.len()
}

// The prefix at `at`, of at most `most` bits, the count and the entries.
fn prefix(m: &[u8], at: usize, most: u64, peers: u64) -> bool
    requires { at ≤ 19 }
    ensures { result ≡ true → Through (prefix most (entry_list peers)) m.now at }
{
    if m.len() <= at {
        return false;
    }
    let bits = number(m, at, 1);
    if most < bits {
        return false;
    }
    let counted = at + 1 + ((bits + 7) / 8) as usize;
    if m.len() < counted + 2 {
        return false;
    }
    entries(m, counted + 2, count(m, counted), peers)
}

fn rib(m: &[u8], at: usize, most: u64, t: Table) -> bool
    requires { at ≤ 19 }
    ensures { result ≡ true → WithTable t (λ peers. Through (prefix most (entry_list peers)) m.now at) }
{
    let Some(peers) = t else {
        return false;
    };
    prefix(m, at, most, peers)
}

// Subtype 6: the family says how long a prefix may be.
fn rib_generic(m: &[u8], t: Table) -> bool
    ensures { result ≡ true → WithTable t (λ peers. Through (rib_generic peers) m.now 12) }
{
    if m.len() < 19 {
        return false;
    }
    match number(m, 18, 1) {
        1 | 2 => match number(m, 16, 2) {
            1 => rib(m, 19, 32, t),
            2 => rib(m, 19, 128, t),
            _ => false,
        },
        _ => false,
    }
}

// So many peers, and nothing behind them.
fn peers(m: &[u8], from: usize, peer_count: u64) -> bool
    requires { from ≤ length m.now }
    ensures { result ≡ true → Through (times peer_count peer) m.now from }
{
    let mut at = from;
    for _ in 0..peer_count {
        if m.len() <= at {
            return false;
        }
        at = peer_end(m, at);
    }
    at == m.len()
}

fn peer_table(m: &[u8]) -> Accepted
    ensures { (longest : ℕ) (t : told.Table) → Sure m.now t (shown_as longest t m.now PeerTable) result }
{
    if m.len() < 18 {
        return Accepted::Unsure;
    }
    let counted = name_end(m, 0);
    if m.len() < counted + 2 {
        return Accepted::Unsure;
    }
    let many = count(m, counted);
    if peers(m, counted + 2, many) && is_text(&m[18..counted]) {
        return Accepted::Table(many);
    }
    Accepted::Unsure
}

fn record_if(good: bool) -> Accepted
    ensures { result ≡ cond good answer.Record answer.Unsure }
{
    if good {
        return Accepted::Record;
    }
    Accepted::Unsure
}

fn table_or_rib(m: &[u8], subtype: u64, t: Table) -> Accepted
    ensures { (longest : ℕ) → Sure m.now t (shown_as longest t m.now (kind13 subtype)) result }
{
    match subtype {
        1 => peer_table(m),
        2..=3 => record_if(rib(m, 16, 32, t)),
        4..=5 => record_if(rib(m, 16, 128, t)),
        6 => record_if(rib_generic(m, t)),
        _ => Accepted::Unsure,
    }
}

// ---- type 12

// An address has `size` octets.
fn table_dump(m: &[u8], size: usize) -> bool
    requires { size ≤ 16 }
    ensures { result ≡ true → Through (table_dump size) m.now 12 }
{
    let first = 26 + 2 * size;
    if m.len() < first {
        return false;
    }
    if 8 * size < number(m, 16 + size, 1) as usize {
        return false;
    }
    if number(m, first - 2, 2) as usize != m.len() - first {
        return false;
    }
    tile(&m[first..])
}

fn route(m: &[u8], subtype: u64) -> bool
    ensures { (longest : ℕ) (t : told.Table) → Yes m.now t (shown_as longest t m.now (kind12 subtype)) result }
{
    match subtype {
        1 => table_dump(m, 4),
        2 => table_dump(m, 16),
        _ => false,
    }
}

// The record m, where the table t is told and a BGP message has at most `longest` octets.
pub fn accept(m: &[u8], t: Table, longest: u64) -> Accepted
    requires { 12 ≤ length m.now }
    ensures { Sure m.now t (whole_record longest t m.now) result }
{
    let ty = number(m, 4, 2);
    let subtype = number(m, 6, 2);
    match ty {
        16..=17 => record_if(session(m, 12 + micro_of(ty), subtype, longest)),
        13 => table_or_rib(m, subtype, t),
        12 => record_if(route(m, subtype)),
        11 | 32 | 48 => Accepted::Record,
        33 | 49 => record_if(16 <= m.len()),
        _ => Accepted::Unsure,
    }
}
