#![tactic(auto)]

// The list of the muted as a cut keeps it (specs/Slots).
pub type Slots = [u16; 196608];
