// The library's calls as C has them (include/dagsumilat.h): each is that of the same name in the crate `dagsumilat`, with its clauses said again,
// since a contract cannot cite another function's.
#![tactic(auto)]

ghost use Rattle.std.specs.Prelude.{◌≡◌};
ghost use Rattle.page_spec.specs.Bgp4mp.{longest_message};
ghost use Rattle.record_spec.specs.Items.{peer_at};
ghost use Rattle.walk_spec.specs.Walked.{walked};
ghost use Rattle.cut_spec.specs.Answer.{cut_answer, cut_leaves};
ghost use Rattle.dagsumilat_spec.specs.Answers as words;
ghost use Rattle.report_spec.specs.Answer.{report_answer, report_leaves};
ghost use Rattle.dagsumilat_spec.specs.RecordAnswers.{table_by_count, answer_at};
ghost use Rattle.dagsumilat_spec.specs.Unjudged.{unjudged_at};
ghost use Rattle.form_spec.specs.Shape.{no_table};
ghost use Rattle.record_spec.specs.Table.{state_of};
ghost use Rattle.write_spec.specs.Times.{micro_size};
ghost use Rattle.write_spec.specs.Only.{only_type, only_sub, unreads, table_dumps, peer_tables, ribs, generic_ribs, changes, messages};
ghost use Rattle.write_spec.specs.Givens.{unread_given, table_dump_given, peer_table_given, rib_given, rib_generic_given, change_given, message_given};
ghost use Rattle.dagsumilat_spec.specs.WriteWords.{time_by, Reports};
ghost use Rattle.record_spec.specs.One.{read_one};
ghost use Rattle.dagsumilat_spec.specs.ReadWords.{read_words};

// The first fault's number and place, or 0 and the dump's length, and how many records stand before it.
#[unsafe(no_mangle)]
pub extern "C" fn dagsumilat_check(dump: &[u8], answer: &mut [u64; 3])
    ensures { answer.new ≡ words.check_words answer.old (walked longest_message dump.now) }
{
    dagsumilat::dagsumilat_check(dump, answer);
}

// The same, and where the faulty record starts, or the dump's length.
#[unsafe(no_mangle)]
pub extern "C" fn dagsumilat_first_fault(dump: &[u8], answer: &mut [u64; 4])
    ensures { answer.new ≡ words.fault_words answer.old (walked longest_message dump.now) }
{
    dagsumilat::dagsumilat_first_fault(dump, answer);
}

// What is left of a dump inside a window, without the peers whose AS is on the list.
#[unsafe(no_mangle)]
pub extern "C" fn dagsumilat_cut(
    dump: &[u8],
    from: u64,
    to: u64,
    mutes: &[u32],
    out: &mut [u8],
    answer: &mut [u64; 3],
)
    ensures { (answer.new ≡ words.cut_words answer.old (cut_answer longest_message from to mutes.now dump.now out.old)) × (out.new ≡ cut_leaves longest_message from to mutes.now dump.now out.old) }
{
    dagsumilat::dagsumilat_cut(dump, from, to, mutes, out, answer);
}

// A dump's records, state changes, breaks of type 12's sequence and table of states added to a report.
#[unsafe(no_mangle)]
pub extern "C" fn dagsumilat_report(dump: &[u8], report: &mut [u64; 39], answer: &mut [u64; 2])
    ensures { (answer.new ≡ words.report_words answer.old (report_answer longest_message report.old dump.now)) × (report.new ≡ report_leaves longest_message report.old dump.now) }
{
    dagsumilat::dagsumilat_report(dump, report, answer);
}

// The record that starts at `at`, where `table` is the number of peers of the table in force.
#[unsafe(no_mangle)]
pub extern "C" fn dagsumilat_record(dump: &[u8], at: usize, table: u64, answer: &mut [u64; 10])
    ensures { answer.new ≡ words.record_words answer.old (answer_at longest_message table dump.now at) }
{
    dagsumilat::dagsumilat_record(dump, at, table, answer);
}

// The peer of a table that starts at `at`.
#[unsafe(no_mangle)]
pub extern "C" fn dagsumilat_peer(dump: &[u8], at: usize, answer: &mut [u64; 7])
    ensures { answer.new ≡ words.peer_words answer.old (peer_at dump.now at) }
{
    dagsumilat::dagsumilat_peer(dump, at, answer);
}

// The entry of a RIB record that starts at `at`. It is not judged: that was done with its record.
#[unsafe(no_mangle)]
pub extern "C" fn dagsumilat_entry(dump: &[u8], at: usize, answer: &mut [u64; 6])
    ensures { answer.new ≡ words.entry_words answer.old (unjudged_at dump.now at) }
{
    dagsumilat::dagsumilat_entry(dump, at, answer);
}

// One record, all its fields; `table` is the number of peers of the table in force.
#[unsafe(no_mangle)]
pub extern "C" fn dagsumilat_read(octets: &[u8], table: u64, answer: &mut [u64; 20])
    ensures { answer.new ≡ read_words answer.old (read_one longest_message (table_by_count table) octets.now) }
{
    dagsumilat::dagsumilat_read(octets, table, answer);
}

// A record of an unread type.
#[unsafe(no_mangle)]
pub extern "C" fn dagsumilat_write_unread(
    timestamp: u64,
    micro: u64,
    microseconds: u64,
    ty: u64,
    subtype: u64,
    contents: &[u8],
    out: &mut [u8],
    answer: &mut [u64; 2],
)
    ensures { Reports (only_type (unreads (micro_size (time_by timestamp micro microseconds))) longest_message) no_table (unread_given (time_by timestamp micro microseconds) ty subtype contents.now) out.old answer.old answer.new out.new }
{
    dagsumilat::dagsumilat_write_unread(
        timestamp,
        micro,
        microseconds,
        ty,
        subtype,
        contents,
        out,
        answer,
    );
}

// A record of type 12.
#[unsafe(no_mangle)]
pub extern "C" fn dagsumilat_write_table_dump(
    timestamp: u64,
    subtype: u64,
    view: u64,
    sequence: u64,
    prefix: &[u8],
    bits: u64,
    status: u64,
    originated: u64,
    address: &[u8],
    peer: u64,
    attributes: &[u8],
    out: &mut [u8],
    answer: &mut [u64; 2],
)
    ensures { Reports (only_sub table_dumps longest_message) no_table (table_dump_given timestamp subtype view sequence prefix.now bits status originated address.now peer attributes.now) out.old answer.old answer.new out.new }
{
    dagsumilat::dagsumilat_write_table_dump(
        timestamp, subtype, view, sequence, prefix, bits, status, originated, address, peer,
        attributes, out, answer,
    );
}

// A peer table.
#[unsafe(no_mangle)]
pub extern "C" fn dagsumilat_write_peer_table(
    timestamp: u64,
    collector: u64,
    name: &[u8],
    count: u64,
    peers: &[u8],
    out: &mut [u8],
    answer: &mut [u64; 2],
)
    ensures { Reports (only_sub peer_tables longest_message) no_table (peer_table_given timestamp collector name.now count peers.now) out.old answer.old answer.new out.new }
{
    dagsumilat::dagsumilat_write_peer_table(timestamp, collector, name, count, peers, out, answer);
}

// A RIB record of one family.
#[unsafe(no_mangle)]
pub extern "C" fn dagsumilat_write_rib(
    timestamp: u64,
    subtype: u64,
    table: u64,
    sequence: u64,
    bits: u64,
    prefix: &[u8],
    count: u64,
    entries: &[u8],
    out: &mut [u8],
    answer: &mut [u64; 2],
)
    ensures { Reports (only_sub ribs longest_message) (state_of (table_by_count table)) (rib_given timestamp subtype sequence bits prefix.now count entries.now) out.old answer.old answer.new out.new }
{
    dagsumilat::dagsumilat_write_rib(
        timestamp, subtype, table, sequence, bits, prefix, count, entries, out, answer,
    );
}

// A RIB record of subtype 6.
#[unsafe(no_mangle)]
pub extern "C" fn dagsumilat_write_rib_generic(
    timestamp: u64,
    table: u64,
    sequence: u64,
    family: u64,
    safi: u64,
    bits: u64,
    prefix: &[u8],
    count: u64,
    entries: &[u8],
    out: &mut [u8],
    answer: &mut [u64; 2],
)
    ensures { Reports (only_sub generic_ribs longest_message) (state_of (table_by_count table)) (rib_generic_given timestamp sequence family safi bits prefix.now count entries.now) out.old answer.old answer.new out.new }
{
    dagsumilat::dagsumilat_write_rib_generic(
        timestamp, table, sequence, family, safi, bits, prefix, count, entries, out, answer,
    );
}

// A state change.
#[unsafe(no_mangle)]
pub extern "C" fn dagsumilat_write_change(
    timestamp: u64,
    micro: u64,
    microseconds: u64,
    subtype: u64,
    peer: u64,
    local: u64,
    interface: u64,
    family: u64,
    theirs: &[u8],
    ours: &[u8],
    old: u64,
    new: u64,
    out: &mut [u8],
    answer: &mut [u64; 2],
)
    ensures { Reports (only_sub changes longest_message) no_table (change_given (time_by timestamp micro microseconds) subtype peer local interface family theirs.now ours.now old new) out.old answer.old answer.new out.new }
{
    dagsumilat::dagsumilat_write_change(
        timestamp,
        micro,
        microseconds,
        subtype,
        peer,
        local,
        interface,
        family,
        theirs,
        ours,
        old,
        new,
        out,
        answer,
    );
}

// A BGP message.
#[unsafe(no_mangle)]
pub extern "C" fn dagsumilat_write_message(
    timestamp: u64,
    micro: u64,
    microseconds: u64,
    subtype: u64,
    peer: u64,
    local: u64,
    interface: u64,
    family: u64,
    theirs: &[u8],
    ours: &[u8],
    message: &[u8],
    out: &mut [u8],
    answer: &mut [u64; 2],
)
    ensures { Reports (only_sub messages longest_message) no_table (message_given (time_by timestamp micro microseconds) subtype peer local interface family theirs.now ours.now message.now) out.old answer.old answer.new out.new }
{
    dagsumilat::dagsumilat_write_message(
        timestamp,
        micro,
        microseconds,
        subtype,
        peer,
        local,
        interface,
        family,
        theirs,
        ours,
        message,
        out,
        answer,
    );
}
