// The search over raw bytes, and the bytes shown for its answer.
#![tactic(auto)]

pub mod finding;
pub mod showing;
