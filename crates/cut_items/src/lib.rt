// The items of a record in a cut: a RIB record's entries, and a table's peers. m is a dump whose records are good.
#![tactic(auto)]

ghost use Rattle.std.specs.Prelude.{◌≡◌, true, map, ◌+◌, ◌≤◌, ◌<◌, length, drop, take};
ghost use Rattle.form_spec.specs.Fmt.{join};
ghost use Rattle.form_spec.specs.Body.{joins};
ghost use Rattle.form_spec.specs.Shape.{as_of};
ghost use Rattle.page_spec.specs.Rib.{entry};
ghost use Rattle.page_spec.specs.Peers.{peer};
ghost use Rattle.cut_spec.specs.Keep.{kept};
ghost use Rattle.cut_spec.specs.Cut.{mem, renumber};
ghost use Rattle.octets_spec.specs.Over.{over};
ghost use Rattle.form_spec.specs.Found.{Lie, items, Lies, item};
ghost use Rattle.cut_spec.specs.Moved.{moved, new_indexes_from, sieved};
ghost use Rattle.cut_spec.specs.Laid.{laid, Room, Roomy};

use blocks::copy_block;
use look::{entry_index, entry_size, peer_as, peer_end};
use mutes::Mutes;
use octets::put_number;

// The new index of each peer of the table in force, or GOES: fixed memory, where an `Option` would take twice as much.
pub type NewIndexes = [u16; 65536];

// No new index is that large: a table has 65,535 peers at most.
const GOES: u16 = 65535;

// How many items stay, and where what was laid of them ends.
#[derive(Clone, Copy)]
pub struct Laid {
    pub kept: u64,
    pub end: usize,
}

// One function for both kinds of items would be handed a format and how an item's size and new index are read: longer than the two.

// ---- entries

// Lays one entry with its new index. Unless `lays` it is only counted.
fn lay_entry(
    m: &[u8],
    at: usize,
    size: usize,
    peers: u64,
    new: u16,
    out: &mut [u8],
    put: usize,
    lays: bool,
)
    requires lies { Lies (entry peers) (drop at m.now) }
    requires size_value { (size ≡ length (join (item (entry peers) (drop at m.now)))) × (2 ≤ size) × (size ≤ 65543) × (at + size ≤ length m.now) }
    requires room { Room lays out.old put size }
    ensures { out.new ≡ laid lays out.old put (join (renumber new (item (entry peers) (drop at m.now)))) }
{
    if lays {
        copy_block(m, at, size, out, put);
        put_number(out, put, 2, u64::from(new));
    }
}

// Lays the entries that stay, with their new indexes, from `put` on. Unless `lays` they are only counted.
pub fn lay_entries(
    m: &[u8],
    from: usize,
    count: u64,
    peers: u64,
    new_indexes: &NewIndexes,
    out: &mut [u8],
    put: usize,
    lays: bool,
) -> Laid
    requires lie { Lie (entry peers) count (drop from m.now) }
    requires put_le_from { put ≤ from }
    requires roomy { Roomy lays out.old put (moved new_indexes.now (items (entry peers) count (drop from m.now))) }
    ensures { (result.kept ≡ length (moved new_indexes.now (items (entry peers) count (drop from m.now)))) × (result.end ≡ put + length (joins (moved new_indexes.now (items (entry peers) count (drop from m.now))))) × (out.new ≡ laid lays out.old put (joins (moved new_indexes.now (items (entry peers) count (drop from m.now))))) }
{
    let mut at = from;
    let mut kept = 0;
    let mut end = put;
    for _entry in 0..count {
        let size = entry_size(m, at);
        let new = new_indexes[entry_index(m, at)];
        let stays = new < GOES;
        if stays {
            lay_entry(m, at, size, peers, new, out, end, lays);
            kept += 1;
            end += size;
        }
        at += size;
    }
    Laid { kept, end }
}

// ---- peers

// Fills new_indexes for a table of so many peers, the first at `from`; answers how many of them stay. Each AS number is looked up once.
pub fn fill_new_indexes(
    m: &[u8],
    from: usize,
    count: u64,
    mutes: &Mutes,
    new_indexes: &mut NewIndexes,
) -> u64
    requires lie { Lie peer count (drop from m.now) }
    requires count_bound { count < 65536 }
    ensures { (result ≡ length (kept (λ n. mem n mutes.now) (map (as_of peer) (items peer count (drop from m.now))))) × (new_indexes.new ≡ over new_indexes.old 0 (new_indexes_from (λ n. mem n mutes.now) (map (as_of peer) (items peer count (drop from m.now))) 0)) }
{
    let mut at = from;
    let mut kept = 0;
    for i in 0..count as usize {
        if mutes.listed(peer_as(m, at)) {
            new_indexes[i] = GOES;
        } else {
            new_indexes[i] = kept;
            kept += 1;
        }
        at = peer_end(m, at);
    }
    u64::from(kept)
}

// Lays one peer. Unless `lays` it is only counted.
fn lay_peer(m: &[u8], at: usize, size: usize, out: &mut [u8], put: usize, lays: bool)
    requires size_bound { (size ≤ 25) × (at + size ≤ length m.now) }
    requires room { Room lays out.old put size }
    ensures { out.new ≡ laid lays out.old put (take size (drop at m.now)) }
{
    if lays {
        copy_block(m, at, size, out, put);
    }
}

// Lays the peers that stay from `put` on. Unless `lays` they are only counted.
pub fn lay_peers(
    m: &[u8],
    from: usize,
    count: u64,
    new_indexes: &NewIndexes,
    out: &mut [u8],
    put: usize,
    lays: bool,
) -> Laid
    requires lie { Lie peer count (drop from m.now) }
    requires count_bound { (count < 65536) × (put ≤ from) }
    requires roomy { Roomy lays out.old put (sieved new_indexes.now 0 (items peer count (drop from m.now))) }
    ensures { (result.kept ≡ length (sieved new_indexes.now 0 (items peer count (drop from m.now)))) × (result.end ≡ put + length (joins (sieved new_indexes.now 0 (items peer count (drop from m.now))))) × (out.new ≡ laid lays out.old put (joins (sieved new_indexes.now 0 (items peer count (drop from m.now))))) }
{
    let mut at = from;
    let mut kept = 0;
    let mut end = put;
    for new in &new_indexes[..count as usize] {
        let next = peer_end(m, at);
        let stays = *new < GOES;
        if stays {
            lay_peer(m, at, next - at, out, end, lays);
            kept += 1;
            end += next - at;
        }
        at = next;
    }
    Laid { kept, end }
}
