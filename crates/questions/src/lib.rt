// The questions about a given cut, over raw bytes. Each judges the whole run first, then the condition, and only then looks at the cut.
#![tactic(auto)]

pub mod consistency;
mod given;
pub mod listing;
pub mod messages;
pub mod satisfaction;
