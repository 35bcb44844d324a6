// What becomes of a record in a cut. d is a dump whose records are good.
#![tactic(auto)]

ghost use Rattle.std.specs.Prelude.{◌≡◌, ◌&&◌, not, cond, leb, ltb};
ghost use Rattle.look_spec.specs.Sort as sort;
ghost use Rattle.look_spec.specs.Sort.{sort_of};
ghost use Rattle.look_spec.specs.Field.{type_of, subtype_of, time_of, items_at, count_of, Is, Shows};
ghost use Rattle.cut_spec.specs.Cut.{mem};
ghost use Rattle.cut_spec.specs.Fate.{fate_of};
ghost use Rattle.cut_spec.specs.declared.Fate.TheVariants as fated;

use cut_spec::Fate;
use look::{
    count, entry_count_at, late_session_peer, micros, peer_count_at, route_peer, seconds,
    session_peer,
};
use mutes::Mutes;

// Times from start up to but not including end.
#[derive(Clone, Copy)]
pub struct Window {
    pub start: u64,
    pub end: u64,
}

impl Window {
    fn contains(self, time: u64) -> bool
        ensures { result ≡ (leb self.start time && ltb time self.end) }
    {
        self.start <= time && time < self.end
    }
}

// A record that its time alone decides.
fn timed(time: u64, window: Window) -> Fate
    ensures { result ≡ cond (leb window.start time && ltb time window.end) fated.Stays fated.Goes }
{
    if window.contains(time) {
        Fate::Stays
    } else {
        Fate::Goes
    }
}

// A record that its time and its peer AS decide.
fn heard(time: u64, peer: u64, window: Window, mutes: &Mutes) -> Fate
    ensures { result ≡ cond ((leb window.start time && ltb time window.end) && not (mem peer mutes.now)) fated.Stays fated.Goes }
{
    if window.contains(time) && !mutes.listed(peer) {
        Fate::Stays
    } else {
        Fate::Goes
    }
}

// A peer table: it stays, and loses the peers that go.
fn table_fate(d: &[u8], at: usize, lost: bool) -> Fate
    requires { Is d.now at (λ x. sort_of x ≡ sort.table) }
    ensures { Shows d.now at (λ x. result ≡ cond lost (fated.Peers (items_at x) (count_of x)) fated.Stays) }
{
    if !lost {
        return Fate::Stays;
    }
    let counted = peer_count_at(d, at);
    Fate::Peers(counted + 2 - at, count(d, counted))
}

// A RIB record.
fn rib_fate(d: &[u8], at: usize, subtype: u64, window: Window, lost: bool) -> Fate
    requires { Is d.now at (λ x. (sort_of x ≡ sort.rib) × (subtype_of x ≡ subtype)) }
    ensures { Shows d.now at (λ x. result ≡ cond (leb window.start (time_of x) && ltb (time_of x) window.end) (cond lost (fated.Entries (items_at x) (count_of x)) fated.Stays) fated.Goes) }
{
    if !window.contains(seconds(d, at)) {
        return Fate::Goes;
    }
    if !lost {
        return Fate::Stays;
    }
    let counted = entry_count_at(d, at, subtype);
    Fate::Entries(counted + 2 - at, count(d, counted))
}

// The record at `at`, of this type and subtype; `lost` says whether a peer of the table in force behind it goes.
pub fn fate_of(
    d: &[u8],
    at: usize,
    ty: u64,
    subtype: u64,
    window: Window,
    mutes: &Mutes,
    lost: bool,
) -> Fate
    requires { Is d.now at (λ x. (type_of x ≡ ty) × (subtype_of x ≡ subtype)) }
    ensures { Shows d.now at (λ x. result ≡ fate_of window.start window.end mutes.now lost x) }
{
    match ty {
        16 => heard(seconds(d, at), session_peer(d, at, subtype), window, mutes),
        17 => heard(
            micros(d, at),
            late_session_peer(d, at, subtype),
            window,
            mutes,
        ),
        12 => heard(seconds(d, at), route_peer(d, at, subtype), window, mutes),
        13 if subtype == 1 => table_fate(d, at, lost),
        13 => rib_fate(d, at, subtype, window, lost),
        33 | 49 => timed(micros(d, at), window),
        _ => timed(seconds(d, at), window),
    }
}
