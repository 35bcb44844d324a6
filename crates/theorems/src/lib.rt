#![tactic(auto)]

// Laws only: proofs/Theorems.antt is the page to read first.
