// At a cut of an accepted run: is it a cut, is it consistent, how many messages are on each channel. Every answer comes from the index.
#![tactic(auto)]

pub mod choice;
pub mod clocks;
pub mod listing;
