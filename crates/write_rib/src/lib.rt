// Writing type 13, subtypes 2 to 6: RIB records.
#![tactic(auto)]

ghost use Rattle.std.specs.Prelude.{◌≡◌, [], ◌∷◌, ◌++◌, ℕ, ◌+◌, ◌≤◌, length};
ghost use Rattle.form_spec.specs.Fmt.{end, join};
ghost use Rattle.page_spec.specs.Bgp4mp.{longest_message};
ghost use Rattle.form_spec.specs.Put.{digits, bytes, items, refusal, lay, tailed, items_refusal, fields_refusal};
ghost use Rattle.page_spec.specs.Rib.{entry, prefix, generic_head};
ghost use Rattle.record_spec.specs.Table.{state_of};
ghost use Rattle.octets_spec.specs.Over.{over};
ghost use Rattle.write_spec.specs.Only.{only_sub, ribs, generic_ribs};
ghost use Rattle.write_spec.specs.Givens.{rib_given, rib_generic_given};
ghost use Rattle.write_spec.specs.Verdict.{Writes};
ghost use Rattle.write_spec.specs.Judged.{judged, unplaced};

use form_spec::Fault;
use kind::kind_13;
use octets::{put_bytes, put_number};
use page_spec::Kind;
use record_spec::Table;
use rib::entries_at;
use write::{fits, head_refusal, put_head, sized, verdict};

// Entries are judged by the reader, as they stand.
fn entries_refusal(entries: &[u8], count: u64, peers: u64) -> Result<(), Fault>
    ensures { unplaced result ≡ judged (items_refusal (entry peers) (items count entries.now)) }
{
    fits(count, 2)?;
    entries_at(entries, 0, count, peers, ())
}

// A prefix of at most `most` bits, and nothing behind it.
fn prefix_refusal(most: u64, bits: u64, octets: &[u8]) -> Result<(), Fault>
    requires { most ≤ 128 }
    ensures { unplaced result ≡ judged (refusal (prefix most (end 0)) (digits 1 bits ∷ bytes octets.now ∷ [])) }
{
    fits(bits, 1)?;
    if most < bits {
        return Err(Fault {
            number: 8,
            place: 0,
        });
    }
    let size = ((bits + 7) / 8) as usize;
    sized(octets.len(), size)
}

// All but the Length and the room.
fn rib_refusal(
    timestamp: u64,
    subtype: u64,
    told: Table,
    sequence: u64,
    bits: u64,
    prefix: &[u8],
    count: u64,
    entries: &[u8],
) -> Result<(), Fault>
    ensures { (longest : ℕ) → unplaced result ≡ judged (fields_refusal (only_sub ribs longest) (state_of told) (rib_given timestamp subtype sequence bits prefix.now count entries.now)) }
{
    head_refusal(timestamp, subtype)?;
    let Ok(Kind::Rib(most)) = kind_13(subtype) else {
        return Err(Fault {
            number: 4,
            place: 0,
        });
    };
    let Some(peers) = told else {
        return Err(Fault {
            number: 12,
            place: 0,
        });
    };
    fits(sequence, 4)?;
    prefix_refusal(most, bits, prefix)?;
    entries_refusal(entries, count, peers)
}

// The sequence, family, SAFI and prefix of subtype 6.
fn generic_refusal(
    sequence: u64,
    family: u64,
    safi: u64,
    bits: u64,
    prefix: &[u8],
) -> Result<(), Fault>
    ensures { unplaced result ≡ judged (refusal (generic_head (end 0)) (digits 4 sequence ∷ digits 2 family ∷ digits 1 safi ∷ digits 1 bits ∷ bytes prefix.now ∷ [])) }
{
    fits(sequence, 4)?;
    fits(family, 2)?;
    if family < 1 || 2 < family {
        return Err(Fault {
            number: 7,
            place: 0,
        });
    }
    fits(safi, 1)?;
    if safi < 1 || 2 < safi {
        return Err(Fault {
            number: 7,
            place: 0,
        });
    }
    if family <= 1 {
        return prefix_refusal(32, bits, prefix);
    }
    prefix_refusal(128, bits, prefix)
}

// All but the Length and the room.
fn generic_rib_refusal(
    timestamp: u64,
    told: Table,
    sequence: u64,
    family: u64,
    safi: u64,
    bits: u64,
    prefix: &[u8],
    count: u64,
    entries: &[u8],
) -> Result<(), Fault>
    ensures { (longest : ℕ) → unplaced result ≡ judged (fields_refusal (only_sub generic_ribs longest) (state_of told) (rib_generic_given timestamp sequence family safi bits prefix.now count entries.now)) }
{
    head_refusal(timestamp, 6)?;
    let Some(peers) = told else {
        return Err(Fault {
            number: 12,
            place: 0,
        });
    };
    generic_refusal(sequence, family, safi, bits, prefix)?;
    entries_refusal(entries, count, peers)
}

// Lays the prefix length, the prefix, the count and the entries from `at` on.
fn put_entries(out: &mut [u8], at: usize, bits: u64, prefix: &[u8], count: u64, entries: &[u8])
    requires { at + (3 + (length prefix.now + length entries.now)) ≤ length out.old }
    ensures { out.new ≡ over out.old at (join (lay (digits 1 bits ∷ bytes prefix.now ∷ [])) ++ tailed (items count entries.now)) }
{
    let b = at + 1;
    let d = b + prefix.len();
    put_number(out, at, 1, bits);
    put_bytes(prefix, out, b);
    put_number(out, d, 2, count);
    put_bytes(entries, out, d + 2);
}

// A RIB record of subtypes 2 to 5.
pub fn write_rib(
    timestamp: u64,
    subtype: u64,
    told: Table,
    sequence: u64,
    bits: u64,
    prefix: &[u8],
    count: u64,
    entries: &[u8],
    out: &mut [u8],
) -> Result<usize, Fault>
    ensures { Writes (only_sub ribs longest_message) (state_of told) (rib_given timestamp subtype sequence bits prefix.now count entries.now) out.old result out.new }
{
    let fields = rib_refusal(
        timestamp, subtype, told, sequence, bits, prefix, count, entries,
    );
    let size = prefix.len().saturating_add(entries.len()).saturating_add(7);
    let written = verdict(fields, size, out.len())?;
    put_head(out, timestamp, 13, subtype, size as u64);
    put_number(out, 12, 4, sequence);
    put_entries(out, 16, bits, prefix, count, entries);
    Ok(written)
}

// A RIB record of subtype 6.
pub fn write_rib_generic(
    timestamp: u64,
    told: Table,
    sequence: u64,
    family: u64,
    safi: u64,
    bits: u64,
    prefix: &[u8],
    count: u64,
    entries: &[u8],
    out: &mut [u8],
) -> Result<usize, Fault>
    ensures { Writes (only_sub generic_ribs longest_message) (state_of told) (rib_generic_given timestamp sequence family safi bits prefix.now count entries.now) out.old result out.new }
{
    let fields = generic_rib_refusal(
        timestamp, told, sequence, family, safi, bits, prefix, count, entries,
    );
    let size = prefix
        .len()
        .saturating_add(entries.len())
        .saturating_add(10);
    let written = verdict(fields, size, out.len())?;
    put_head(out, timestamp, 13, 6, size as u64);
    put_number(out, 12, 4, sequence);
    put_number(out, 16, 2, family);
    put_number(out, 18, 1, safi);
    put_entries(out, 19, bits, prefix, count, entries);
    Ok(written)
}
