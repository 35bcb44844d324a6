// A dump that arrives in chunks, with a lent room for one record: a feed, and what one call of it answers.
#![tactic(auto)]

use record_spec::Table;

// The last word of a feed.
#[derive(Clone, Copy)]
pub enum Last {
    // none yet
    Open,
    End,
    // a fault's number and place
    Fault(u64, usize),
}

// A feed as far as it has come. Offsets and places count from its first octet.
#[derive(Clone, Copy)]
pub struct Feed {
    // where the record at hand starts
    pub at: usize,
    // how many octets of it were taken: the room's first ones
    pub taken: usize,
    // the table in force before it
    pub table: Table,
    pub last: Last,
}

// How far the record at hand has come with a chunk.
#[derive(Clone, Copy)]
pub enum Reach {
    // octets of it, or of its header, are missing
    Short,
    // its header is there, and the room or 64 bits are too small for it
    Large,
    // it is all there, so many octets
    Whole(usize),
}

#[derive(Clone, Copy)]
pub enum Said {
    // nothing yet, for lack of octets
    More,
    // a record, of so many octets
    Record(usize),
    End,
    // a fault's number and place
    Fault(u64, usize),
}

// What one call says, how many octets of its chunk it has taken, and the feed afterwards.
#[derive(Clone, Copy)]
pub struct Fed {
    pub said: Said,
    pub taken: usize,
    pub feed: Feed,
}
