// What is left of a record, laid in a lent buffer or only counted. d is a dump whose records are good.
// `lays` is a flag: as a trait of buffers, or `None` for one, it would bring more than the four tests of it that it spares.
#![tactic(auto)]

ghost use Rattle.std.specs.Prelude.{◌≡◌, ◌||◌, ◌+◌, ◌-◌, ◌≤◌, ◌<◌, ltb, eqb, length, drop};
ghost use Rattle.form_spec.specs.Found.{Lie};
ghost use Rattle.page_spec.specs.Rib.{entry};
ghost use Rattle.page_spec.specs.Peers.{peer};
ghost use Rattle.cut_spec.specs.Laid.{laid, Room, between, Passed};
ghost use Rattle.cut_spec.specs.Left.{front_left, table_left, rib_left, octets_of, Sound};

use blocks::copy_blocks;
use cut_items::{NewIndexes, lay_entries, lay_peers};
use cut_spec::Fate;
use octets::put_number;

// How far the cut has come: records from `run` on stay, and are to be laid at `put`.
// That `put` is not past `run` is asked and no invariant: only the cut's loop knows that what is left of a record is never longer.
#[derive(Clone, Copy)]
pub struct Far {
    pub run: usize,
    pub put: usize,
}

impl Far {
    // Lays the run, which ends at `to`; answers where it ends in the buffer. Unless `lays` it is only counted.
    pub fn lay(self, d: &[u8], to: usize, out: &mut [u8], lays: bool) -> usize
        requires run_le_to { (self.run ≤ to) × (to ≤ length d.now) × (self.put ≤ self.run) }
        requires room { Room lays out.old self.put (to - self.run) }
        ensures { (result ≡ self.put + (to - self.run)) × (out.new ≡ laid lays out.old self.put (between d.now self.run to)) }
    {
        let size = to - self.run;
        if lays && 0 < size {
            copy_blocks(d, self.run, size, out, self.put);
        }
        self.put + size
    }

    // ---- one record passed, from `at` to `next`

    // It stays: neighbours are laid together, some 8,192 octets at a time, while they are near.
    fn pass_whole(self, d: &[u8], at: usize, next: usize, out: &mut [u8], lays: bool) -> Far
        requires put_le_run { (self.put ≤ self.run) × (self.run ≤ at) × (at ≤ next) × (next ≤ length d.now) }
        requires room { Room lays out.old self.put (next - self.run) }
        ensures { Passed lays d.now out.old out.new (between d.now at next) at next self.run self.put result.run result.put }
    {
        if next - self.run <= 8192 {
            return self;
        }
        let put = self.lay(d, next, out, lays);
        Far { run: next, put }
    }

    // What becomes of it is told; the table in force has so many peers.
    pub fn pass(
        self,
        d: &[u8],
        at: usize,
        next: usize,
        fate: Fate,
        peers: u64,
        new_indexes: &NewIndexes,
        out: &mut [u8],
        lays: bool,
    ) -> Far
        requires put_le_run { (self.put ≤ self.run) × (self.run ≤ at) × (at ≤ next) × (next ≤ length d.now) }
        requires sound { Sound d.now at peers fate }
        requires room { Room lays out.old self.put (at - self.run + length (octets_of new_indexes.now d.now at next peers fate)) }
        ensures { Passed lays d.now out.old out.new (octets_of new_indexes.now d.now at next peers fate) at next self.run self.put result.run result.put }
    {
        match fate {
            Fate::Stays => self.pass_whole(d, at, next, out, lays),
            Fate::Goes => {
                let put = self.lay(d, at, out, lays);
                Far { run: next, put }
            }
            Fate::Peers(off, count) => {
                let here = self.lay(d, at, out, lays);
                let put = lay_table(d, at, off, count, new_indexes, out, here, lays);
                Far { run: next, put }
            }
            Fate::Entries(off, count) => {
                let here = self.lay(d, at, out, lays);
                let put = lay_rib(d, at, off, count, peers, new_indexes, out, here, lays);
                Far { run: next, put }
            }
        }
    }
}

// ---- a record with other items

// Lays a peer table.
fn lay_table(
    d: &[u8],
    at: usize,
    off: usize,
    count: u64,
    new_indexes: &NewIndexes,
    out: &mut [u8],
    put: usize,
    lays: bool,
) -> usize
    requires le_off { (14 ≤ off) × (at + off ≤ length d.now) × (count < 65536) × Lie peer count (drop (at + off) d.now) }
    requires put_le_at { put ≤ at }
    requires room { Room lays out.old put (length (table_left new_indexes.now d.now at off count)) }
    ensures { (result ≡ put + length (table_left new_indexes.now d.now at off count)) × (out.new ≡ laid lays out.old put (table_left new_indexes.now d.now at off count)) }
{
    let from = at + off;
    let items = lay_peers(d, from, count, new_indexes, out, put + off, lays);
    lay_front(d, at, from - 2, items.kept, out, put, items.end, lays);
    items.end
}

// Lays a RIB record: its entries behind room for the rest, which follows if any of them stayed or it came with none.
fn lay_rib(
    d: &[u8],
    at: usize,
    off: usize,
    count: u64,
    peers: u64,
    new_indexes: &NewIndexes,
    out: &mut [u8],
    put: usize,
    lays: bool,
) -> usize
    requires le_off { (14 ≤ off) × (at + off ≤ length d.now) × Lie (entry peers) count (drop (at + off) d.now) }
    requires put_le_at { put ≤ at }
    requires room { Room lays out.old put (length (rib_left new_indexes.now d.now at off count peers)) }
    ensures { (result ≡ put + length (rib_left new_indexes.now d.now at off count peers)) × (out.new ≡ laid lays out.old put (rib_left new_indexes.now d.now at off count peers)) }
{
    let from = at + off;
    let items = lay_entries(d, from, count, peers, new_indexes, out, put + off, lays);
    if !remains(items.kept, count) {
        return put;
    }
    lay_front(d, at, from - 2, items.kept, out, put, items.end, lays);
    items.end
}

// Whether a RIB record is left: one of its entries stayed, or it came with none.
fn remains(kept: u64, count: u64) -> bool
    ensures { result ≡ (eqb count 0 || ltb 0 kept) }
{
    count == 0 || 0 < kept
}

// Lays a record's octets up to its count, which stands at `counted`, and corrects Length and count; its items are laid up to `end`.
fn lay_front(
    d: &[u8],
    at: usize,
    counted: usize,
    kept: u64,
    out: &mut [u8],
    put: usize,
    end: usize,
    lays: bool,
)
    requires at_bound { (at + 12 ≤ counted) × (counted ≤ length d.now) × (put ≤ at) × (put + (counted - at + 2) ≤ end) }
    requires room { Room lays out.old put (counted - at + 2) }
    ensures { out.new ≡ laid lays out.old put (front_left d.now at (counted - at - 12) (end - put - 12) kept) }
{
    if lays {
        let size = counted - at;
        copy_blocks(d, at, size, out, put);
        put_number(out, put + 8, 4, (end - put - 12) as u64);
        put_number(out, put + size, 2, kept);
    }
}
