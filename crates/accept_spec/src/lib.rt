#![tactic(auto)]

// A good record; of a peer table also how many peers it has.
#[derive(Drop)]
pub enum Accepted {
    Unsure,
    Record,
    Table(u64),
}
