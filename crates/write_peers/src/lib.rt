// Writing type 13, subtype 1: the peer table.
#![tactic(auto)]

ghost use Rattle.std.specs.Prelude.{◌≡◌, [], ◌∷◌, ◌++◌, ℕ, ◌+◌, ◌≤◌, length};
ghost use Rattle.octets_spec.specs.Over.{over};
ghost use Rattle.page_spec.specs.Bgp4mp.{longest_message};
ghost use Rattle.form_spec.specs.Fmt.{end, join};
ghost use Rattle.form_spec.specs.Put.{digits, bytes, items, refusal, lay, tailed, items_refusal, fields_refusal};
ghost use Rattle.form_spec.specs.Shape.{no_table};
ghost use Rattle.page_spec.specs.Peers.{peer, table_head};
ghost use Rattle.write_spec.specs.Only.{only_sub, peer_tables};
ghost use Rattle.write_spec.specs.Givens.{peer_table_given};
ghost use Rattle.write_spec.specs.Verdict.{Writes};
ghost use Rattle.write_spec.specs.Judged.{judged, unplaced};

use form_spec::Fault;
use octets::{put_bytes, put_number};
use peers::peers_at;
use text::is_text;
use write::{fits, head_refusal, put_head, verdict};

// Peers are judged by the reader, as they stand.
fn peers_refusal(peers: &[u8], count: u64) -> Result<(), Fault>
    ensures { unplaced result ≡ judged (items_refusal peer (items count peers.now)) }
{
    fits(count, 2)?;
    peers_at(peers, 0, count, ())
}

fn front_refusal(collector: u64, name: &[u8]) -> Result<(), Fault>
    ensures { unplaced result ≡ judged (refusal (table_head (end 0)) (digits 4 collector ∷ digits 2 (length name.now) ∷ bytes name.now ∷ [])) }
{
    fits(collector, 4)?;
    fits(name.len() as u64, 2)?;
    if !is_text(name) {
        return Err(Fault {
            number: 17,
            place: 0,
        });
    }
    Ok(())
}

// All but the Length and the room.
fn table_refusal(
    timestamp: u64,
    collector: u64,
    name: &[u8],
    count: u64,
    peers: &[u8],
) -> Result<(), Fault>
    ensures { (longest : ℕ) → unplaced result ≡ judged (fields_refusal (only_sub peer_tables longest) no_table (peer_table_given timestamp collector name.now count peers.now)) }
{
    head_refusal(timestamp, 1)?;
    front_refusal(collector, name)?;
    peers_refusal(peers, count)
}

// Lays the message from 12 on.
fn put_table(out: &mut [u8], collector: u64, name: &[u8], count: u64, peers: &[u8])
    requires { 20 + length name.now + length peers.now ≤ length out.old }
    ensures { out.new ≡ over out.old 12 (join (lay (digits 4 collector ∷ digits 2 (length name.now) ∷ bytes name.now ∷ [])) ++ tailed (items count peers.now)) }
{
    let a = 18 + name.len();
    put_number(out, 12, 4, collector);
    put_number(out, 16, 2, name.len() as u64);
    put_bytes(name, out, 18);
    put_number(out, a, 2, count);
    put_bytes(peers, out, a + 2);
}

// A peer table.
pub fn write_peer_table(
    timestamp: u64,
    collector: u64,
    name: &[u8],
    count: u64,
    peers: &[u8],
    out: &mut [u8],
) -> Result<usize, Fault>
    ensures { Writes (only_sub peer_tables longest_message) no_table (peer_table_given timestamp collector name.now count peers.now) out.old result out.new }
{
    let fields = table_refusal(timestamp, collector, name, count, peers);
    let size = name.len().saturating_add(peers.len()).saturating_add(8);
    let written = verdict(fields, size, out.len())?;
    put_head(out, timestamp, 13, 1, size as u64);
    put_table(out, collector, name, count, peers);
    Ok(written)
}
