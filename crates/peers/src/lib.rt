// Type 13, subtype 1: the peer table. m is the record from its header to its last octet.
#![tactic(auto)]

ghost use Rattle.std.specs.Prelude.{◌≡◌, ◌≤◌, Ok};
ghost use Rattle.form_spec.specs.Pass.{pass, whole, times, number_of};
ghost use Rattle.page_spec.specs.Peers.{peer_rest, peer_sized, peer, peer_list, peer_table};
ghost use Rattle.record_spec.specs.Fields.{part_of, peers_of};
ghost use Rattle.record_spec.specs.Fields as show;
ghost use Rattle.record_spec.specs.Answer.{peer_fault, peer_end};
ghost use Rattle.record_spec.specs.Items.{peer_at, Finds};
ghost use Rattle.page_spec.specs.Names.{peer_as, peer_address};
ghost use Rattle.record_spec.specs.Shown.{Good};
ghost use Rattle.form_spec.specs.Refusal.{refused};
ghost use Rattle.peers.specs.ShownPeer.{shown_peer};
ghost use Rattle.record_spec.specs.declared.Body.TheVariants.{PeerTable};

use form_spec::Fault;
use octets::{field, left, part, skip};
use record_spec::{Body, Header, Part, Peer, Peers, Shown};
use text::is_text;

fn peer_rest(
    m: &[u8],
    at: usize,
    size: usize,
    width: usize,
    kind: u64,
    id: u64,
) -> Result<Peer, Fault>
    requires { width ≤ 8 }
    ensures { result ≡ pass (λ fs a p. shown_peer kind id (part_of peer_address fs) (number_of peer_as fs) a) refused (peer_rest size width) m.now at }
{
    let a = skip(m, at, size)?;
    let (as_number, next) = field(m, a, width)?;
    let address = Part { at, size };
    Ok(Peer {
        kind,
        id,
        address,
        as_number,
        next,
    })
}

fn peer_sized(m: &[u8], at: usize, size: usize, kind: u64, id: u64) -> Result<Peer, Fault>
    ensures { result ≡ pass (λ fs a p. shown_peer kind id (part_of peer_address fs) (number_of peer_as fs) a) refused (peer_sized size kind) m.now at }
{
    if kind / 2 % 2 == 1 {
        return peer_rest(m, at, size, 4, kind, id);
    }
    peer_rest(m, at, size, 2, kind, id)
}

// The peer that starts at `at`.
pub fn peer_at(m: &[u8], at: usize) -> Result<Peer, Fault>
    ensures { (result ≡ peer_at m.now at) × Finds peer m.now at (peer_fault result) (peer_end result) }
{
    let (kind, a) = field(m, at, 1)?;
    let (id, b) = field(m, a, 4)?;
    if kind % 2 == 1 {
        return peer_sized(m, b, 16, kind, id);
    }
    peer_sized(m, b, 4, kind, id)
}

// So many peers, and nothing behind them; then the answer is s.
pub fn peers_at<T: Copy>(m: &[u8], from: usize, count: u64, s: T) -> Result<T, Fault>
    ensures { result ≡ whole (λ fs. Ok s) refused (times count peer) m.now from }
{
    let mut at = from;
    for _ in 0..count {
        at = peer_at(m, at)?.next;
    }
    if at < m.len() {
        return Err(Fault {
            number: 6,
            place: at,
        });
    }
    Ok(s)
}

// The count at `at`, so many peers, and nothing behind them.
fn counted_peers(m: &[u8], at: usize, h: Header, collector: u64, name: Part) -> Shown
    ensures { result ≡ whole (λ fs. Good h (PeerTable (peers_of collector name m.now fs))) refused peer_list m.now at }
{
    let (count, a) = field(m, at, 2)?;
    let table = Peers {
        collector,
        name,
        count,
        peers: Part {
            at: a,
            size: left(m, a),
        },
    };
    peers_at(m, a, count, Some((h, Body::PeerTable(table))))
}

// A peer table's message that starts at `at` and ends where m ends.
pub fn peer_table(m: &[u8], at: usize, h: Header) -> Shown
    ensures { result ≡ whole (show.peer_table h m.now) refused peer_table m.now at }
{
    let (collector, a) = field(m, at, 4)?;
    let (n, b) = field(m, a, 2)?;
    let size = n as usize;
    let d = skip(m, b, size)?;
    if !is_text(part(m, b, size)) {
        return Err(Fault {
            number: 17,
            place: b,
        });
    }
    counted_peers(m, d, h, collector, Part { at: b, size })
}
