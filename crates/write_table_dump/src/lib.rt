// Writing type 12.
#![tactic(auto)]

ghost use Rattle.std.specs.Prelude.{◌≡◌, [], ◌∷◌, ℕ, ◌+◌, ◌≤◌, length};
ghost use Rattle.form_spec.specs.Fmt.{join};
ghost use Rattle.page_spec.specs.Bgp4mp.{longest_message};
ghost use Rattle.form_spec.specs.Put.{digits, bytes, refusal, lay, fields_refusal};
ghost use Rattle.form_spec.specs.Shape.{no_table};
ghost use Rattle.page_spec.specs.TableDump.{table_dump, table_dump_rest};
ghost use Rattle.octets_spec.specs.Over.{over};
ghost use Rattle.write_spec.specs.Only.{only_sub, table_dumps};
ghost use Rattle.write_spec.specs.Givens.{route_values, table_dump_given};
ghost use Rattle.write_spec.specs.Verdict.{Writes};
ghost use Rattle.write_spec.specs.Judged.{judged, unplaced};

use form_spec::Fault;
use kind::kind_12;
use octets::{put_bytes, put_number};
use page_spec::Kind;
use write::{fits, head_refusal, put_head, sized, verdict};

// Behind the prefix length.
fn rest_refusal(
    size: usize,
    status: u64,
    originated: u64,
    address: &[u8],
    peer: u64,
    attributes: &[u8],
) -> Result<(), Fault>
    ensures { unplaced result ≡ judged (refusal (table_dump_rest size) (digits 1 status ∷ digits 4 originated ∷ bytes address.now ∷ digits 2 peer ∷ digits 2 (length attributes.now) ∷ bytes attributes.now ∷ [])) }
{
    fits(status, 1)?;
    fits(originated, 4)?;
    sized(address.len(), size)?;
    fits(peer, 2)?;
    fits(attributes.len() as u64, 2)?;
    if !attr::tile(attributes) {
        return Err(Fault {
            number: 11,
            place: 0,
        });
    }
    Ok(())
}

fn route_refusal(
    size: usize,
    view: u64,
    sequence: u64,
    prefix: &[u8],
    bits: u64,
    status: u64,
    originated: u64,
    address: &[u8],
    peer: u64,
    attributes: &[u8],
) -> Result<(), Fault>
    requires { size ≤ 16 }
    ensures { unplaced result ≡ judged (refusal (table_dump size) (route_values view sequence prefix.now bits status originated address.now peer attributes.now)) }
{
    fits(view, 2)?;
    fits(sequence, 2)?;
    sized(prefix.len(), size)?;
    fits(bits, 1)?;
    if ((8 * size) as u64) < bits {
        return Err(Fault {
            number: 8,
            place: 0,
        });
    }
    rest_refusal(size, status, originated, address, peer, attributes)
}

// All but the Length and the room.
fn dump_refusal(
    timestamp: u64,
    subtype: u64,
    view: u64,
    sequence: u64,
    prefix: &[u8],
    bits: u64,
    status: u64,
    originated: u64,
    address: &[u8],
    peer: u64,
    attributes: &[u8],
) -> Result<(), Fault>
    ensures { (longest : ℕ) → unplaced result ≡ judged (fields_refusal (only_sub table_dumps longest) no_table (table_dump_given timestamp subtype view sequence prefix.now bits status originated address.now peer attributes.now)) }
{
    head_refusal(timestamp, subtype)?;
    let Ok(Kind::TableDump(size)) = kind_12(subtype) else {
        return Err(Fault {
            number: 4,
            place: 0,
        });
    };
    route_refusal(
        size, view, sequence, prefix, bits, status, originated, address, peer, attributes,
    )
}

// Lays the fields up to the prefix length from 12 on; answers where they end.
fn put_front(out: &mut [u8], view: u64, sequence: u64, prefix: &[u8], bits: u64) -> usize
    requires { 17 + length prefix.now ≤ length out.old }
    ensures { (result ≡ 17 + length prefix.now) × (out.new ≡ over out.old 12 (join (lay (digits 2 view ∷ digits 2 sequence ∷ bytes prefix.now ∷ digits 1 bits ∷ [])))) }
{
    let a = 16 + prefix.len();
    put_number(out, 12, 2, view);
    put_number(out, 14, 2, sequence);
    put_bytes(prefix, out, 16);
    put_number(out, a, 1, bits);
    a + 1
}

// Lays those behind it from `at` on.
fn put_rest(
    out: &mut [u8],
    at: usize,
    status: u64,
    originated: u64,
    address: &[u8],
    peer: u64,
    attributes: &[u8],
)
    requires { at + (9 + (length address.now + length attributes.now)) ≤ length out.old }
    ensures { out.new ≡ over out.old at (join (lay (digits 1 status ∷ digits 4 originated ∷ bytes address.now ∷ digits 2 peer ∷ digits 2 (length attributes.now) ∷ bytes attributes.now ∷ []))) }
{
    let b = at + 5;
    let d = b + address.len();
    put_number(out, at, 1, status);
    put_number(out, at + 1, 4, originated);
    put_bytes(address, out, b);
    put_number(out, d, 2, peer);
    put_number(out, d + 2, 2, attributes.len() as u64);
    put_bytes(attributes, out, d + 4);
}

// A type 12 record.
pub fn write_table_dump(
    timestamp: u64,
    subtype: u64,
    view: u64,
    sequence: u64,
    prefix: &[u8],
    bits: u64,
    status: u64,
    originated: u64,
    address: &[u8],
    peer: u64,
    attributes: &[u8],
    out: &mut [u8],
) -> Result<usize, Fault>
    ensures { Writes (only_sub table_dumps longest_message) no_table (table_dump_given timestamp subtype view sequence prefix.now bits status originated address.now peer attributes.now) out.old result out.new }
{
    let fields = dump_refusal(
        timestamp, subtype, view, sequence, prefix, bits, status, originated, address, peer,
        attributes,
    );
    let parts = prefix
        .len()
        .saturating_add(address.len())
        .saturating_add(attributes.len());
    let size = parts.saturating_add(14);
    let written = verdict(fields, size, out.len())?;
    put_head(out, timestamp, 12, subtype, size as u64);
    let at = put_front(out, view, sequence, prefix, bits);
    put_rest(out, at, status, originated, address, peer, attributes);
    Ok(written)
}
