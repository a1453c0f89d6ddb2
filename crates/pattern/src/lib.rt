// Patterns: the bracket sets of requests 1 and 13, and the patterns of `wildcard`.
#![tactic(auto)]

pub mod sets;
pub mod wildcard;
