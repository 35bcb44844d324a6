// Writing one record, with numbers for the time and the table and two words for the answer.
#![tactic(auto)]

ghost use Rattle.std.specs.Prelude.{◌≡◌};
ghost use Rattle.form_spec.specs.Shape.{no_table};
ghost use Rattle.page_spec.specs.Bgp4mp.{longest_message};
ghost use Rattle.record_spec.specs.Table.{state_of};
ghost use Rattle.write_spec.specs.Times.{micro_size};
ghost use Rattle.write_spec.specs.Only.{only_type, only_sub, unreads, table_dumps, peer_tables, ribs, generic_ribs, changes, messages};
ghost use Rattle.write_spec.specs.Givens.{unread_given, table_dump_given, peer_table_given, rib_given, rib_generic_given, change_given, message_given};
ghost use Rattle.dagsumilat_spec.specs.RecordAnswers.{table_by_count};
ghost use Rattle.dagsumilat_spec.specs.WriteWords.{time_by, write_words, Reports};

use dagsumilat_told::{table_of, time_of};
use form_spec::Fault;
use write_bgp::{write_change, write_message};
use write_peers::write_peer_table;
use write_rib::{write_rib, write_rib_generic};
use write_table_dump::write_table_dump;
use write_unread::write_unread;

// The fault, and how many octets were written.
fn put_words(answer: &mut [u64; 2], written: Result<usize, Fault>)
    ensures { answer.new ≡ write_words answer.old written }
{
    *answer = match written {
        Ok(n) => [0, n as u64],
        Err(f) => [u64::from(f.number), 0],
    };
}

// A record of an unread type.
pub fn unread(
    timestamp: u64,
    micro: u64,
    microseconds: u64,
    ty: u64,
    subtype: u64,
    contents: &[u8],
    out: &mut [u8],
    answer: &mut [u64; 2],
)
    ensures { Reports (only_type (unreads (micro_size (time_by timestamp micro microseconds))) longest_message) no_table (unread_given (time_by timestamp micro microseconds) ty subtype contents.now) out.old answer.old answer.new out.new }
{
    let time = time_of(timestamp, micro, microseconds);
    let written = write_unread(time, ty, subtype, contents, out);
    put_words(answer, written);
}

// A record of type 12.
pub fn table_dump(
    timestamp: u64,
    subtype: u64,
    view: u64,
    sequence: u64,
    prefix: &[u8],
    bits: u64,
    status: u64,
    originated: u64,
    address: &[u8],
    peer: u64,
    attributes: &[u8],
    out: &mut [u8],
    answer: &mut [u64; 2],
)
    ensures { Reports (only_sub table_dumps longest_message) no_table (table_dump_given timestamp subtype view sequence prefix.now bits status originated address.now peer attributes.now) out.old answer.old answer.new out.new }
{
    let written = write_table_dump(
        timestamp, subtype, view, sequence, prefix, bits, status, originated, address, peer,
        attributes, out,
    );
    put_words(answer, written);
}

// A peer table.
pub fn peer_table(
    timestamp: u64,
    collector: u64,
    name: &[u8],
    count: u64,
    peers: &[u8],
    out: &mut [u8],
    answer: &mut [u64; 2],
)
    ensures { Reports (only_sub peer_tables longest_message) no_table (peer_table_given timestamp collector name.now count peers.now) out.old answer.old answer.new out.new }
{
    let written = write_peer_table(timestamp, collector, name, count, peers, out);
    put_words(answer, written);
}

// A RIB record of one family.
pub fn rib(
    timestamp: u64,
    subtype: u64,
    table: u64,
    sequence: u64,
    bits: u64,
    prefix: &[u8],
    count: u64,
    entries: &[u8],
    out: &mut [u8],
    answer: &mut [u64; 2],
)
    ensures { Reports (only_sub ribs longest_message) (state_of (table_by_count table)) (rib_given timestamp subtype sequence bits prefix.now count entries.now) out.old answer.old answer.new out.new }
{
    let told = table_of(table);
    let written = write_rib(
        timestamp, subtype, told, sequence, bits, prefix, count, entries, out,
    );
    put_words(answer, written);
}

// A RIB record of subtype 6.
pub fn rib_generic(
    timestamp: u64,
    table: u64,
    sequence: u64,
    family: u64,
    safi: u64,
    bits: u64,
    prefix: &[u8],
    count: u64,
    entries: &[u8],
    out: &mut [u8],
    answer: &mut [u64; 2],
)
    ensures { Reports (only_sub generic_ribs longest_message) (state_of (table_by_count table)) (rib_generic_given timestamp sequence family safi bits prefix.now count entries.now) out.old answer.old answer.new out.new }
{
    let in_force = table_of(table);
    let written = write_rib_generic(
        timestamp, in_force, sequence, family, safi, bits, prefix, count, entries, out,
    );
    put_words(answer, written);
}

// A state change.
pub fn change(
    timestamp: u64,
    micro: u64,
    microseconds: u64,
    subtype: u64,
    peer: u64,
    local: u64,
    interface: u64,
    family: u64,
    theirs: &[u8],
    ours: &[u8],
    old: u64,
    new: u64,
    out: &mut [u8],
    answer: &mut [u64; 2],
)
    ensures { Reports (only_sub changes longest_message) no_table (change_given (time_by timestamp micro microseconds) subtype peer local interface family theirs.now ours.now old new) out.old answer.old answer.new out.new }
{
    let time = time_of(timestamp, micro, microseconds);
    let written = write_change(
        time, subtype, peer, local, interface, family, theirs, ours, old, new, out,
    );
    put_words(answer, written);
}

// A BGP message.
pub fn message(
    timestamp: u64,
    micro: u64,
    microseconds: u64,
    subtype: u64,
    peer: u64,
    local: u64,
    interface: u64,
    family: u64,
    theirs: &[u8],
    ours: &[u8],
    message: &[u8],
    out: &mut [u8],
    answer: &mut [u64; 2],
)
    ensures { Reports (only_sub messages longest_message) no_table (message_given (time_by timestamp micro microseconds) subtype peer local interface family theirs.now ours.now message.now) out.old answer.old answer.new out.new }
{
    let time = time_of(timestamp, micro, microseconds);
    let written = write_message(
        time, subtype, peer, local, interface, family, theirs, ours, message, out,
    );
    put_words(answer, written);
}
