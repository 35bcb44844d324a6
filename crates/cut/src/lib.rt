// The cut: what is left of a dump inside a time window, without the peers on a list.
// Behind the check the dump, d, is known to be good, and its records are only looked at.
#![tactic(auto)]

ghost use Rattle.std.specs.Prelude.{◌≡◌, true, ◌≤◌, leb, length};
ghost use Rattle.form_spec.specs.Record.{next};
ghost use Rattle.form_spec.specs.Dump.{Splits};
ghost use Rattle.page_spec.specs.Bgp4mp.{longest_message};
ghost use Rattle.page_spec.specs.Layout.{layout};
ghost use Rattle.cut_spec.specs.Laid.{laid};
ghost use Rattle.cut_spec.specs.Answer.{left_of, Cuts};
ghost use Rattle.room_spec.specs.Room.{written, holds};
ghost use Rattle.look_spec.specs.Sort.{sort_of, is_table};
ghost use Rattle.cut.specs.State.{state_told, shown_at, rec_at};
ghost use Rattle.cut.specs.Stands.{InStep, Stands};

use cut_fate::{Window, fate_of};
use cut_items::{NewIndexes, fill_new_indexes};
use cut_lay::Far;
use form_spec::Fault;
use look::{count, end_at, is_peer_table, peer_count_at, subtype_of, type_of};
use mutes::Mutes;
use page_spec::LONGEST_MESSAGE;
use walk::walk_with;

// The table in force: where its peers start in the dump, how many they are, and whether any of them goes.
#[derive(Clone, Copy)]
pub struct InForce {
    pub from: usize,
    pub count: u64,
    pub lost: bool,
}

// The table in force behind the record at `at`, where there may be one before; new_indexes are filled anew at a peer table.
fn table_behind(
    d: &[u8],
    at: usize,
    peer_table: bool,
    before: Option<InForce>,
    mutes: &Mutes,
    new_indexes: &mut NewIndexes,
    longest: u64,
) -> Option<InForce>
    requires stands { Stands longest mutes.now new_indexes.old d.now at before }
    requires table_value { peer_table ≡ is_table (sort_of (shown_at longest d.now before at)) }
    ensures { (state_told d.now result ≡ next (layout longest) (rec_at longest d.now before at) (state_told d.now before)) × InStep mutes.now new_indexes.new d.now result }
{
    if !peer_table {
        return before;
    }
    let counted = peer_count_at(d, at);
    let from = counted + 2;
    let peers = count(d, counted);
    let kept = fill_new_indexes(d, from, peers, mutes, new_indexes);
    Some(InForce {
        from,
        count: peers,
        lost: kept < peers,
    })
}

// What is left of d, laid or only counted; answers how many octets it has.
// `longest` and `peers` serve only clauses, and are no ghost values: those have to be told from what a call is handed.
fn leave(
    d: &[u8],
    window: Window,
    mutes: &Mutes,
    new_indexes: &mut NewIndexes,
    out: &mut [u8],
    lays: bool,
    longest: u64,
) -> usize
    requires splits { Splits (layout longest) d.now }
    requires d_in_bounds { lays ≡ true → length (left_of longest window.start window.end mutes.now d.now) ≤ length out.old }
    ensures { (result ≡ length (left_of longest window.start window.end mutes.now d.now)) × (out.new ≡ laid lays out.old 0 (left_of longest window.start window.end mutes.now d.now)) }
{
    let mut at = 0;
    let mut far = Far { run: 0, put: 0 };
    let mut in_force = None;
    while at < d.len() {
        let ty = type_of(d, at);
        let subtype = subtype_of(d, at);
        let peer_table = is_peer_table(ty, subtype);
        in_force = table_behind(d, at, peer_table, in_force, mutes, new_indexes, longest);
        let lost = in_force.is_some_and(|table| table.lost);
        let peers = in_force.map_or(0, |table| table.count);
        let next = end_at(d, at);
        let fate = fate_of(d, at, ty, subtype, window, mutes, lost);
        far = far.pass(d, at, next, fate, peers, new_indexes, out, lays);
        at = next;
    }
    far.lay(d, at, out, lays)
}

// Whether what is left of a dump goes into out. It is never longer than the dump, and is measured only for a shorter buffer.
fn fits(
    dump: &[u8],
    window: Window,
    mutes: &Mutes,
    new_indexes: &mut NewIndexes,
    out: &mut [u8],
    longest: u64,
) -> bool
    requires { Splits (layout longest) dump.now }
    ensures { (result ≡ leb (length (left_of longest window.start window.end mutes.now dump.now)) (length out.old)) × (out.new ≡ out.old) }
{
    if out.len() < dump.len() {
        return leave(dump, window, mutes, new_indexes, out, false, longest) <= out.len();
    }
    true
}

// The cut of a dump that is good.
fn left_of(
    dump: &[u8],
    window: Window,
    mutes: &[u32],
    out: &mut [u8],
    longest: u64,
) -> Result<usize, Fault>
    requires { Splits (layout longest) dump.now }
    ensures { (result ≡ written 0 0 (left_of longest window.start window.end mutes.now dump.now) out.old) × (out.new ≡ holds 0 (left_of longest window.start window.end mutes.now dump.now) out.old) }
{
    let mut slots = [0u16; 196608];
    let mutes = Mutes::of(mutes, &mut slots);
    let mut new_indexes = [0u16; 65536];
    if fits(dump, window, &mutes, &mut new_indexes, out, longest) {
        return Ok(leave(dump, window, &mutes, &mut new_indexes, out, true, longest));
    }
    Err(Fault {
        number: 15,
        place: 0,
    })
}

// What is left of a dump inside the window from start up to but not including end, without the peers whose AS is on the list, where a
// BGP message has at most `longest` octets.
pub fn cut_with(
    dump: &[u8],
    start: u64,
    end: u64,
    mutes: &[u32],
    out: &mut [u8],
    longest: u64,
) -> Result<usize, Fault>
    ensures { Cuts longest start end mutes.now dump.now out.old result out.new }
{
    if end < start {
        return Err(Fault {
            number: 14,
            place: 0,
        });
    }
    let checked = walk_with(dump, longest);
    if 0 < checked.fault {
        return Err(Fault {
            number: checked.fault,
            place: checked.place,
        });
    }
    left_of(dump, Window { start, end }, mutes, out, longest)
}

// The same up to the longest BGP message of today.
pub fn cut(dump: &[u8], start: u64, end: u64, mutes: &[u32], out: &mut [u8]) -> Result<usize, Fault>
    ensures { Cuts longest_message start end mutes.now dump.now out.old result out.new }
{
    cut_with(dump, start, end, mutes, out, LONGEST_MESSAGE)
}
