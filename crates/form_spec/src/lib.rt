#![tactic(auto)]

// Why octets are not what they should be, or why a call is refused: document 01's number of the fault, and its place.
#[derive(Clone, Copy)]
pub struct Fault {
    pub number: u8,
    pub place: usize,
}
