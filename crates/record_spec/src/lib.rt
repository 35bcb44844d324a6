#![tactic(auto)]

use form_spec::Fault;

// What reading shows. A place is an offset from the record's header; a part is octets that stay where they lie.
#[derive(Clone, Copy)]
pub struct Part {
    pub at: usize,
    pub size: usize,
}

#[derive(Clone, Copy)]
pub struct Header {
    pub timestamp: u32,
    pub ty: u16,
    pub subtype: u16,
    pub length: u32,
    // 0 where the type has none
    pub microseconds: u32,
}

// Types 16 and 17: the peer's AS and the local one, and the two addresses, the peer's first.
#[derive(Clone, Copy)]
pub struct Session {
    pub peer: u64,
    pub local: u64,
    pub interface: u64,
    pub family: u64,
    pub theirs: Part,
    pub ours: Part,
}

// Type 12.
#[derive(Clone, Copy)]
pub struct Route {
    pub view: u64,
    pub sequence: u64,
    pub prefix: Part,
    pub bits: u64,
    pub status: u64,
    pub originated: u64,
    pub address: Part,
    pub peer: u64,
    pub attributes: Part,
}

// Type 13, subtype 1.
#[derive(Clone, Copy)]
pub struct Peers {
    pub collector: u64,
    pub name: Part,
    pub count: u64,
    pub peers: Part,
}

// Type 13, subtypes 2 to 6, but for the family and SAFI that only subtype 6 has.
#[derive(Clone, Copy)]
pub struct Routes {
    pub sequence: u64,
    pub bits: u64,
    pub prefix: Part,
    pub count: u64,
    pub entries: Part,
}

// Subtype 6: family and SAFI.
#[derive(Clone, Copy)]
pub struct Scope {
    pub family: u64,
    pub safi: u64,
}

#[derive(Clone, Copy)]
pub struct States {
    pub old: u64,
    pub new: u64,
}

// A BGP message, from its marker on, and its type octet.
#[derive(Clone, Copy)]
pub struct Bgp {
    pub message: Part,
    pub kind: u64,
}

// What stands behind a good record's header and microseconds.
#[derive(Clone, Copy)]
pub enum Body {
    // its contents
    Unread(Part),
    TableDump(Route),
    PeerTable(Peers),
    Rib(Routes),
    RibGeneric(Scope, Routes),
    Change(Session, States),
    Message(Session, Bgp),
}

// A record, unless there are no octets at all; or the fault, placed from the record's header.
pub type Shown = Result<Option<(Header, Body)>, Fault>;

// One entry of a RIB record. `next` is where the next entry starts.
#[derive(Clone, Copy)]
pub struct Entry {
    pub index: u64,
    pub originated: u64,
    pub attributes: Part,
    pub next: usize,
}

// One peer of a table. `next` is where the next peer starts.
#[derive(Clone, Copy)]
pub struct Peer {
    pub kind: u64,
    pub id: u64,
    pub address: Part,
    pub as_number: u64,
    pub next: usize,
}

// The table that a reader or a writer is told, by the number of its peers; none in force.
pub type Table = Option<u64>;
