#![tactic(auto)]

// A record: where it ends, the table in force behind it, its peer AS, where its items start, counted from its header, and how many
// they are; or a fault's number and place.
#[derive(Drop)]
pub struct RecordAnswer {
    pub fault: u8,
    pub place: usize,
    pub table: u64,
    pub time: u64,
    pub ty: u16,
    pub subtype: u16,
    pub length: u32,
    pub peer: u64,
    pub items: usize,
    pub count: u64,
}
