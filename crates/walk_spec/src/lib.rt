// What going through a dump answers. Offsets count from the dump's first octet.
#![tactic(auto)]

use form_spec::Fault;
use record_spec::Table;

// A record: where it starts, its time in microseconds, and where the next one starts.
#[derive(Clone, Copy)]
pub struct Item {
    pub at: usize,
    pub time: u64,
    pub ty: u16,
    pub subtype: u16,
    pub length: u32,
    pub next: usize,
}

// A record and the table in force behind it, unless no octets are left; or the fault.
pub type Step = Result<Option<(Item, Table)>, Fault>;

// The first fault's number and place, or 0 and the dump's length; where the faulty record starts, or the dump's length; and how many records
// stand before it.
#[derive(Drop)]
pub struct Walked {
    pub fault: u8,
    pub place: usize,
    pub start: usize,
    pub records: u64,
}
