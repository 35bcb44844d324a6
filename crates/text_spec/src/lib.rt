#![tactic(auto)]

// What a sequence's first octet tells: how many octets follow it, and from which to which the first of these may be.
#[derive(Clone, Copy)]
pub struct Start {
    pub more: u8,
    pub low: u8,
    pub high: u8,
}
