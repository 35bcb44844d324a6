// The library's calls for C and Rust (include/dagsumilat.h).
#![tactic(auto)]

ghost use Rattle.std.specs.Prelude.{◌≡◌};
ghost use Rattle.page_spec.specs.Bgp4mp.{longest_message};
ghost use Rattle.record_spec.specs.Items.{peer_at};
ghost use Rattle.walk_spec.specs.Walked.{walked};
ghost use Rattle.cut_spec.specs.Answer.{cut_answer, cut_leaves};
ghost use Rattle.dagsumilat_spec.specs.Answers as words;
ghost use Rattle.report_spec.specs.Answer.{report_answer, report_leaves};
ghost use Rattle.look_spec.specs.Field.{type_of, subtype_of, items_at, count_of, Known, Is, Shows, Counted};
ghost use Rattle.look_spec.specs.Sort as sort;
ghost use Rattle.dagsumilat_spec.specs.RecordAnswers.{none, table_by_count, count_of_table, no_record, good, by_sort, answer_at};
ghost use Rattle.dagsumilat_spec.specs.Unjudged.{unjudged_at};
ghost use Rattle.form_spec.specs.Shape.{no_table};
ghost use Rattle.record_spec.specs.Table.{state_of};
ghost use Rattle.write_spec.specs.Times.{micro_size};
ghost use Rattle.write_spec.specs.Only.{only_type, only_sub, unreads, table_dumps, peer_tables, ribs, generic_ribs, changes, messages};
ghost use Rattle.write_spec.specs.Givens.{unread_given, table_dump_given, peer_table_given, rib_given, rib_generic_given, change_given, message_given};
ghost use Rattle.dagsumilat_spec.specs.WriteWords.{time_by, Reports};
ghost use Rattle.record_spec.specs.One.{read_one};
ghost use Rattle.dagsumilat_spec.specs.ReadWords.{read_words};

use cut::cut;
use dagsumilat_spec::RecordAnswer;
use dagsumilat_told::table_of;
use form_spec::Fault;
use look::{
    count, entry_count_at, late_session_peer, peer_count_at, route_peer, session_peer, subtype_of,
    type_of,
};
use octets::{field, skip};
use page_spec::LONGEST_MESSAGE;
use peers::peer_at;
use record_spec::{Entry, Part, Table};
use walk::{step_with, walk};
use walk_spec::Item;

// The first fault's number and place, or 0 and the dump's length, and how many records stand before it.
pub fn dagsumilat_check(dump: &[u8], answer: &mut [u64; 3])
    ensures { answer.new ≡ words.check_words answer.old (walked longest_message dump.now) }
{
    let w = walk(dump);
    *answer = [u64::from(w.fault), w.place as u64, w.records];
}

// The same, and where the faulty record starts, or the dump's length.
pub fn dagsumilat_first_fault(dump: &[u8], answer: &mut [u64; 4])
    ensures { answer.new ≡ words.fault_words answer.old (walked longest_message dump.now) }
{
    dagsumilat_fault::first_fault(dump, answer);
}

// What is left of a dump inside a window, without the peers whose AS is on the list.
pub fn dagsumilat_cut(
    dump: &[u8],
    from: u64,
    to: u64,
    mutes: &[u32],
    out: &mut [u8],
    answer: &mut [u64; 3],
)
    ensures { (answer.new ≡ words.cut_words answer.old (cut_answer longest_message from to mutes.now dump.now out.old)) × (out.new ≡ cut_leaves longest_message from to mutes.now dump.now out.old) }
{
    *answer = match cut(dump, from, to, mutes, out) {
        Ok(n) => [0, 0, n as u64],
        Err(f) => [u64::from(f.number), f.place as u64, 0],
    };
}

// A dump's records, state changes, breaks of type 12's sequence and table of states added to a report.
pub fn dagsumilat_report(dump: &[u8], report: &mut [u64; 39], answer: &mut [u64; 2])
    ensures { (answer.new ≡ words.report_words answer.old (report_answer longest_message report.old dump.now)) × (report.new ≡ report_leaves longest_message report.old dump.now) }
{
    dagsumilat_report::report(dump, report, answer)
}

fn count_of_table(t: Table) -> u64
    ensures { result ≡ count_of_table t }
{
    t.unwrap_or(u64::MAX)
}

fn no_record(fault: u8, at: usize, table: u64) -> RecordAnswer
    ensures { result ≡ no_record fault at table }
{
    RecordAnswer {
        fault,
        place: at,
        table,
        time: 0,
        ty: 0,
        subtype: 0,
        length: 0,
        peer: u64::MAX,
        items: 0,
        count: 0,
    }
}

fn good(i: Item, table: u64, peer: u64, items: usize, count: u64) -> RecordAnswer
    ensures { result ≡ good i table peer items count }
{
    RecordAnswer {
        fault: 0,
        place: i.next,
        table,
        time: i.time,
        ty: i.ty,
        subtype: i.subtype,
        length: i.length,
        peer,
        items,
        count,
    }
}

// Where a record of type 13 counts its items.
fn counted_at(d: &[u8], at: usize, subtype: u64) -> usize
    requires { Is d.now at (λ x. (type_of x ≡ 13) × (subtype_of x ≡ subtype)) }
    ensures { Shows d.now at (Counted d.now at result) }
{
    if subtype == 1 {
        return peer_count_at(d, at);
    }
    entry_count_at(d, at, subtype)
}

// A good record of type 13.
fn items_answer(d: &[u8], at: usize, i: Item, subtype: u64, table: u64) -> RecordAnswer
    requires { Is d.now at (λ x. (type_of x ≡ 13) × (subtype_of x ≡ subtype)) }
    ensures { Shows d.now at (λ x. result ≡ good i table none (items_at x) (count_of x)) }
{
    let counted = counted_at(d, at, subtype);
    good(i, table, u64::MAX, counted + 2 - at, count(d, counted))
}

// The good record at `at`, behind which `table` is in force.
fn good_answer(d: &[u8], at: usize, i: Item, table: u64) -> RecordAnswer
    requires { Known d.now at }
    ensures { Shows d.now at (λ x. result ≡ by_sort i table x (sort.sort_of x)) }
{
    let subtype = subtype_of(d, at);
    match type_of(d, at) {
        12 => good(i, table, route_peer(d, at, subtype), 0, 0),
        13 => items_answer(d, at, i, subtype, table),
        16 => good(i, table, session_peer(d, at, subtype), 0, 0),
        17 => good(i, table, late_session_peer(d, at, subtype), 0, 0),
        _ => good(i, table, u64::MAX, 0, 0),
    }
}

fn answer_at(d: &[u8], at: usize, table: u64, longest: u64) -> RecordAnswer
    ensures { result ≡ answer_at longest table d.now at }
{
    match step_with(d, at, table_of(table), longest) {
        Ok(None) => no_record(0, at, table),
        Ok(Some((i, behind))) => good_answer(d, at, i, count_of_table(behind)),
        Err(f) => no_record(f.number, f.place, table),
    }
}

// The record that starts at `at`, where `table` is the number of peers of the table in force.
pub fn dagsumilat_record(dump: &[u8], at: usize, table: u64, answer: &mut [u64; 10])
    ensures { answer.new ≡ words.record_words answer.old (answer_at longest_message table dump.now at) }
{
    let t = answer_at(dump, at, table, LONGEST_MESSAGE);
    *answer = [
        u64::from(t.fault),
        t.place as u64,
        t.table,
        t.time,
        u64::from(t.ty),
        u64::from(t.subtype),
        u64::from(t.length),
        t.peer,
        t.items as u64,
        t.count,
    ];
}

// The peer of a table that starts at `at`.
pub fn dagsumilat_peer(dump: &[u8], at: usize, answer: &mut [u64; 7])
    ensures { answer.new ≡ words.peer_words answer.old (peer_at dump.now at) }
{
    *answer = match peer_at(dump, at) {
        Ok(p) => [
            0,
            p.next as u64,
            p.as_number,
            p.kind,
            p.id,
            p.address.at as u64,
            p.address.size as u64,
        ],
        Err(f) => [u64::from(f.number), f.place as u64, 0, 0, 0, 0, 0],
    };
}

fn entry_fields(d: &[u8], at: usize) -> Result<Entry, Fault>
    ensures { result ≡ unjudged_at d.now at }
{
    let (index, a) = field(d, at, 2)?;
    let (originated, b) = field(d, a, 4)?;
    let (n, c) = field(d, b, 2)?;
    let size = n as usize;
    let next = skip(d, c, size)?;
    let attributes = Part { at: c, size };
    Ok(Entry {
        index,
        originated,
        attributes,
        next,
    })
}

// The entry of a RIB record that starts at `at`. It is not judged: that was done with its record.
pub fn dagsumilat_entry(dump: &[u8], at: usize, answer: &mut [u64; 6])
    ensures { answer.new ≡ words.entry_words answer.old (unjudged_at dump.now at) }
{
    *answer = match entry_fields(dump, at) {
        Ok(e) => [
            0,
            e.next as u64,
            e.index,
            e.originated,
            e.attributes.at as u64,
            e.attributes.size as u64,
        ],
        Err(f) => [u64::from(f.number), f.place as u64, 0, 0, 0, 0],
    };
}

// One record, all its fields; `table` is the number of peers of the table in force.
pub fn dagsumilat_read(octets: &[u8], table: u64, answer: &mut [u64; 20])
    ensures { answer.new ≡ read_words answer.old (read_one longest_message (table_by_count table) octets.now) }
{
    dagsumilat_read::read(octets, table, answer);
}

// A record of an unread type.
pub fn dagsumilat_write_unread(
    timestamp: u64,
    micro: u64,
    microseconds: u64,
    ty: u64,
    subtype: u64,
    contents: &[u8],
    out: &mut [u8],
    answer: &mut [u64; 2],
)
    ensures { Reports (only_type (unreads (micro_size (time_by timestamp micro microseconds))) longest_message) no_table (unread_given (time_by timestamp micro microseconds) ty subtype contents.now) out.old answer.old answer.new out.new }
{
    dagsumilat_write::unread(
        timestamp,
        micro,
        microseconds,
        ty,
        subtype,
        contents,
        out,
        answer,
    );
}

// A record of type 12.
pub fn dagsumilat_write_table_dump(
    timestamp: u64,
    subtype: u64,
    view: u64,
    sequence: u64,
    prefix: &[u8],
    bits: u64,
    status: u64,
    originated: u64,
    address: &[u8],
    peer: u64,
    attributes: &[u8],
    out: &mut [u8],
    answer: &mut [u64; 2],
)
    ensures { Reports (only_sub table_dumps longest_message) no_table (table_dump_given timestamp subtype view sequence prefix.now bits status originated address.now peer attributes.now) out.old answer.old answer.new out.new }
{
    dagsumilat_write::table_dump(
        timestamp, subtype, view, sequence, prefix, bits, status, originated, address, peer,
        attributes, out, answer,
    );
}

// A peer table.
pub fn dagsumilat_write_peer_table(
    timestamp: u64,
    collector: u64,
    name: &[u8],
    count: u64,
    peers: &[u8],
    out: &mut [u8],
    answer: &mut [u64; 2],
)
    ensures { Reports (only_sub peer_tables longest_message) no_table (peer_table_given timestamp collector name.now count peers.now) out.old answer.old answer.new out.new }
{
    dagsumilat_write::peer_table(timestamp, collector, name, count, peers, out, answer);
}

// A RIB record of one family.
pub fn dagsumilat_write_rib(
    timestamp: u64,
    subtype: u64,
    table: u64,
    sequence: u64,
    bits: u64,
    prefix: &[u8],
    count: u64,
    entries: &[u8],
    out: &mut [u8],
    answer: &mut [u64; 2],
)
    ensures { Reports (only_sub ribs longest_message) (state_of (table_by_count table)) (rib_given timestamp subtype sequence bits prefix.now count entries.now) out.old answer.old answer.new out.new }
{
    dagsumilat_write::rib(
        timestamp, subtype, table, sequence, bits, prefix, count, entries, out, answer,
    );
}

// A RIB record of subtype 6.
pub fn dagsumilat_write_rib_generic(
    timestamp: u64,
    table: u64,
    sequence: u64,
    family: u64,
    safi: u64,
    bits: u64,
    prefix: &[u8],
    count: u64,
    entries: &[u8],
    out: &mut [u8],
    answer: &mut [u64; 2],
)
    ensures { Reports (only_sub generic_ribs longest_message) (state_of (table_by_count table)) (rib_generic_given timestamp sequence family safi bits prefix.now count entries.now) out.old answer.old answer.new out.new }
{
    dagsumilat_write::rib_generic(
        timestamp, table, sequence, family, safi, bits, prefix, count, entries, out, answer,
    );
}

// A state change.
pub fn dagsumilat_write_change(
    timestamp: u64,
    micro: u64,
    microseconds: u64,
    subtype: u64,
    peer: u64,
    local: u64,
    interface: u64,
    family: u64,
    theirs: &[u8],
    ours: &[u8],
    old: u64,
    new: u64,
    out: &mut [u8],
    answer: &mut [u64; 2],
)
    ensures { Reports (only_sub changes longest_message) no_table (change_given (time_by timestamp micro microseconds) subtype peer local interface family theirs.now ours.now old new) out.old answer.old answer.new out.new }
{
    dagsumilat_write::change(
        timestamp,
        micro,
        microseconds,
        subtype,
        peer,
        local,
        interface,
        family,
        theirs,
        ours,
        old,
        new,
        out,
        answer,
    );
}

// A BGP message.
pub fn dagsumilat_write_message(
    timestamp: u64,
    micro: u64,
    microseconds: u64,
    subtype: u64,
    peer: u64,
    local: u64,
    interface: u64,
    family: u64,
    theirs: &[u8],
    ours: &[u8],
    message: &[u8],
    out: &mut [u8],
    answer: &mut [u64; 2],
)
    ensures { Reports (only_sub messages longest_message) no_table (message_given (time_by timestamp micro microseconds) subtype peer local interface family theirs.now ours.now message.now) out.old answer.old answer.new out.new }
{
    dagsumilat_write::message(
        timestamp,
        micro,
        microseconds,
        subtype,
        peer,
        local,
        interface,
        family,
        theirs,
        ours,
        message,
        out,
        answer,
    );
}
