// What a report heeds, and what counting and adding answer.
#![tactic(auto)]

// What a report heeds in one record.
#[derive(Drop)]
pub enum Notice {
    Plain,
    // a state change: the old state, the new one
    Change(u64, u64),
    // a record of type 12: its sequence
    Sequence(u16),
}

// What going through a dump answers: the first fault's number and place, or 0 and the dump's length; where the faulty record starts, or the
// dump's length; and the report of the records before: records, state changes, breaks of type 12's sequence, and for each old state, 1 to 6,
// how often each new one followed it.
#[derive(Drop)]
pub struct Tallied {
    pub fault: u8,
    pub place: usize,
    pub start: usize,
    pub own: [u64; 39],
}

// What adding a dump to a report answers.
#[derive(Drop)]
pub struct Added {
    pub fault: u8,
    pub place: usize,
}
