// What judging a whole run means: 11, 12 and 13, and acceptance; and the laws of it. There is no code here but the shared type.
#![tactic(auto)]

// The state ahead of the send whose message a state receives.
#[derive(Clone, Copy)]
pub struct Ahead {
    pub process: u16,
    pub state: u16,
}
