#![tactic(auto)]

// Laws only.
