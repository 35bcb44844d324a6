// Fields of a record that is known to be good, a line each: no check is made twice. d is the dump; the record starts at `at`.
// What a caller knows of the record is `Known` or `Is`, what it learns of it `Shows`: the field that reading shows.
#![tactic(auto)]

ghost use Rattle.std.specs.Prelude.{◌≡◌, true, false, cond, ◌+◌, ◌*◌, ◌/◌, ◌%◌, ◌^◌, ◌≤◌, ◌<◌, eqb, length, drop, get_or};
ghost use Rattle.form_spec.specs.Fmt.{join};
ghost use Rattle.form_spec.specs.Shape.{as_of, index_of};
ghost use Rattle.octets_spec.specs.Be.{num_at};
ghost use Rattle.page_spec.specs.Peers.{peer};
ghost use Rattle.form_spec.specs.Found.{Lies, item};
ghost use Rattle.page_spec.specs.Layout.{finer};
ghost use Rattle.look_spec.specs.Field.{type_of, subtype_of, time_of, peer_of, width_of, change_by, states_of, sequence_of, Known, Is, Shows, Ends, Counted};
ghost use Rattle.look_spec.specs.Sort.{table, rib, sort_of, sort_by, is_table};
ghost use Rattle.look_spec.specs.Items.{SomeEntry, EachEntry, address_size, peer_end};

use octets::number;
use record_spec::States;

// Where the record ends.
pub fn end_at(d: &[u8], at: usize) -> usize
    requires { Known d.now at }
    ensures { Shows d.now at (Ends d.now at result) }
{
    at + 12 + number(d, at + 8, 4) as usize
}

pub fn type_of(d: &[u8], at: usize) -> u64
    requires { Known d.now at }
    ensures { Shows d.now at (λ x. result ≡ type_of x) }
{
    number(d, at + 4, 2)
}

pub fn subtype_of(d: &[u8], at: usize) -> u64
    requires { Known d.now at }
    ensures { Shows d.now at (λ x. result ≡ subtype_of x) }
{
    number(d, at + 6, 2)
}

// Whether records of this type and subtype are peer tables.
pub fn is_peer_table(ty: u64, subtype: u64) -> bool
    ensures { result ≡ is_table (sort_by ty subtype) }
{
    if ty == 13 {
        return subtype == 1;
    }
    false
}

fn stamp(d: &[u8], at: usize) -> u64
    requires { at + 4 ≤ length d.now }
    ensures { (result ≡ num_at d.now at 4 * 1000000) × (result < 256 ^ 4 * 1000000) }
{
    number(d, at, 4) * 1000000
}

// The time of a record that has no microseconds.
pub fn seconds(d: &[u8], at: usize) -> u64
    requires { Is d.now at (λ x. finer (type_of x) ≡ false) }
    ensures { Shows d.now at (λ x. result ≡ time_of x) }
{
    stamp(d, at)
}

// The time of a record that starts with microseconds.
pub fn micros(d: &[u8], at: usize) -> u64
    requires { Is d.now at (λ x. finer (type_of x) ≡ true) }
    ensures { Shows d.now at (λ x. result ≡ time_of x) }
{
    stamp(d, at) + number(d, at + 12, 4)
}

// ---- types 16 and 17

// How many octets an AS number has.
pub fn as_width(subtype: u64) -> usize
    ensures { (result ≡ width_of subtype) × (result ≤ 4) }
{
    match subtype {
        4 | 5 | 7 => 4,
        _ => 2,
    }
}

// What a number of 4 octets is divided by for the number in the first `width`.
fn behind_width(width: usize) -> u64
    ensures { (result ≡ cond (eqb width 4) 1 65536) × (0 < result) }
{
    if width == 4 {
        return 1;
    }
    65536
}

// The AS number that a session at `from` starts with. 4 octets are there in any case, and are read at once: neighbouring records differ
// in their subtypes, and a branch would be mispredicted.
fn first_as(d: &[u8], from: usize, subtype: u64) -> u64
    requires { from + 4 ≤ length d.now }
    ensures { result ≡ num_at d.now from (width_of subtype) }
{
    number(d, from, 4) / behind_width(as_width(subtype))
}

// Type 16: the peer AS.
pub fn session_peer(d: &[u8], at: usize, subtype: u64) -> u64
    requires { Is d.now at (λ x. (type_of x ≡ 16) × (subtype_of x ≡ subtype)) }
    ensures { Shows d.now at (λ x. result ≡ peer_of x) }
{
    first_as(d, at + 12, subtype)
}

// Type 17: the peer AS.
pub fn late_session_peer(d: &[u8], at: usize, subtype: u64) -> u64
    requires { Is d.now at (λ x. (type_of x ≡ 17) × (subtype_of x ≡ subtype)) }
    ensures { Shows d.now at (λ x. result ≡ peer_of x) }
{
    first_as(d, at + 16, subtype)
}

// Whether records of this type and subtype are state changes.
pub fn is_change(ty: u64, subtype: u64) -> bool
    ensures { result ≡ change_by ty subtype }
{
    match ty {
        16..=17 => match subtype {
            0 | 5 => true,
            _ => false,
        },
        _ => false,
    }
}

// A state change: its states, the last fields of the record.
pub fn states(d: &[u8], at: usize) -> States
    requires { Is d.now at (λ x. change_by (type_of x) (subtype_of x) ≡ true) }
    ensures { (1 ≤ result.old) × (result.old ≤ 6) × (1 ≤ result.new) × (result.new ≤ 6) × Shows d.now at (λ x. result ≡ states_of x) }
{
    let end = end_at(d, at);
    States {
        old: number(d, end - 4, 2),
        new: number(d, end - 2, 2),
    }
}

// ---- type 12

// The sequence.
pub fn sequence(d: &[u8], at: usize) -> u16
    requires { Is d.now at (λ x. type_of x ≡ 12) }
    ensures { Shows d.now at (λ x. result ≡ sequence_of x) }
{
    number(d, at + 14, 2) as u16
}

// The peer AS.
pub fn route_peer(d: &[u8], at: usize, subtype: u64) -> u64
    requires { Is d.now at (λ x. (type_of x ≡ 12) × (subtype_of x ≡ subtype)) }
    ensures { Shows d.now at (λ x. result ≡ peer_of x) }
{
    if subtype == 1 {
        return number(d, at + 30, 2);
    }
    number(d, at + 54, 2)
}

// ---- type 13

// The count of items that stands at `at`.
pub fn count(d: &[u8], at: usize) -> u64
    requires { at + 2 ≤ length d.now }
    ensures { (result ≡ num_at d.now at 2) × (result < 256 ^ 2) }
{
    number(d, at, 2)
}

// Where a peer table's view name ends.
pub fn name_end(d: &[u8], at: usize) -> usize
    requires { at + 18 ≤ length d.now }
    ensures { (result ≡ at + 18 + num_at d.now (at + 16) 2) × (result < at + 18 + 256 ^ 2) }
{
    at + 18 + number(d, at + 16, 2) as usize
}

// A peer table: where its count stands.
pub fn peer_count_at(d: &[u8], at: usize) -> usize
    requires { Is d.now at (λ x. sort_of x ≡ table) }
    ensures { Shows d.now at (Counted d.now at result) }
{
    name_end(d, at)
}

// Where the count stands behind the prefix whose length stands at `from`.
fn behind_prefix(d: &[u8], from: usize) -> usize
    requires { from < length d.now }
    ensures { result ≡ from + 1 + (num_at d.now from 1 + 7) / 8 }
{
    from + 1 + ((number(d, from, 1) + 7) / 8) as usize
}

// A RIB record: where its count stands.
pub fn entry_count_at(d: &[u8], at: usize, subtype: u64) -> usize
    requires { Is d.now at (λ x. (sort_of x ≡ rib) × (subtype_of x ≡ subtype)) }
    ensures { Shows d.now at (Counted d.now at result) }
{
    if subtype == 6 {
        return behind_prefix(d, at + 19);
    }
    behind_prefix(d, at + 16)
}

// ---- an entry that lies at `at`

pub fn entry_index(d: &[u8], at: usize) -> usize
    requires { SomeEntry d.now at }
    ensures { (result < 256 ^ 2) × EachEntry d.now at (λ peers it. result ≡ index_of it) }
{
    number(d, at, 2) as usize
}

pub fn entry_size(d: &[u8], at: usize) -> usize
    requires { SomeEntry d.now at }
    ensures { (8 ≤ result) × (result < 8 + 256 ^ 2) × EachEntry d.now at (λ peers it. (result ≡ length (join it)) × (at + result ≤ length d.now)) }
{
    8 + number(d, at + 6, 2) as usize
}

// ---- a peer that starts at `at`

fn address_size(kind: u8) -> usize
    ensures { (result ≡ address_size kind) × (result ≤ 16) }
{
    if kind % 2 == 1 {
        return 16;
    }
    4
}

fn wide_as(kind: u8) -> bool
    ensures { result ≡ eqb (kind / 2 % 2) 1 }
{
    kind / 2 % 2 == 1
}

// Where its AS number stands.
fn peer_as_at(d: &[u8], at: usize) -> usize
    requires { at < length d.now }
    ensures { result ≡ at + 5 + address_size (get_or d.now at 0) }
{
    at + 5 + address_size(d[at])
}

pub fn peer_as(d: &[u8], at: usize) -> u64
    requires { Lies peer (drop at d.now) }
    ensures { result ≡ as_of peer (item peer (drop at d.now)) }
{
    let from = peer_as_at(d, at);
    if wide_as(d[at]) {
        return number(d, from, 4);
    }
    number(d, from, 2)
}

// Where it ends.
pub fn peer_end(d: &[u8], at: usize) -> usize
    requires { at < length d.now }
    ensures { (result ≡ peer_end d.now at) × (Lies peer (drop at d.now) → (result ≡ at + length (join (item peer (drop at d.now)))) × (result ≤ length d.now)) }
{
    let from = peer_as_at(d, at);
    if wide_as(d[at]) {
        return from + 4;
    }
    from + 2
}
