// Definitions and laws only.
#![tactic(auto)]

// What becomes of a record.
#[derive(Drop)]
pub enum Fate {
    // it stays as it is
    Stays,
    Goes,
    // a table or a RIB record that is laid item by item: where they start behind the record's start, and how many they are
    Peers(usize, u64),
    Entries(usize, u64),
}
