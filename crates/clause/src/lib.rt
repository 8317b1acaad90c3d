// Whether one clause holds at a cut of an accepted run: `local` with `compare` for a value, `channel_tests` for what is on a channel.
#![tactic(auto)]

pub mod channel_tests;
mod compare;
pub mod local;
