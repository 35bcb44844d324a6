#![tactic(auto)]

// A record's time: a Timestamp, or one with microseconds.
#[derive(Clone, Copy)]
pub enum Time {
    Seconds(u64),
    Micro(u64, u64),
}
