// What the records of a run say, and which refusal each gets. `held` says what stands in a state record, `judge` has the tests of one record
// beside what is known so far.
#![tactic(auto)]

pub mod held;
pub mod judge;

use model::Event;

// A state: its process, what led into it, and the place of its values in the lent bytes.
#[derive(Clone, Copy)]
pub struct State {
    pub process: u16,
    pub event: Event,
    pub values: usize,
}
