#![tactic(auto)]

// The layout that a Type and a Subtype choose. `micro` is 4 where the message starts with microseconds, else 0.
#[derive(Clone, Copy)]
pub enum Kind {
    // micro
    Unread(usize),
    // type 12: octets of an address
    TableDump(usize),
    PeerTable,
    // a RIB record: bits that its prefix has at most
    Rib(u64),
    RibGeneric,
    // a state change, a BGP message: micro, octets of an AS number
    Change(usize, usize),
    Message(usize, usize),
}

// The longest BGP message, in octets.
pub const LONGEST_MESSAGE: u64 = 4096;
