#![tactic(auto)]

// Definitions only.
