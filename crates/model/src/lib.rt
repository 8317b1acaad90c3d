// The words of the mathematics that code holds too. Everything else of this crate stands in specs/ (what a reader must believe) and proofs/.
#![tactic(auto)]

// A message: its channel, its number there, its stamp.
#[derive(Clone, Copy)]
pub struct Message {
    pub channel: u16,
    pub number: u32,
    pub stamp: i32,
}

// What led into a state.
#[derive(Clone, Copy)]
pub enum Event {
    Start,
    Internal,
    Send(Message),
    Receive(Message),
}

// A channel: the process that sends on it and the one that receives.
#[derive(Clone, Copy)]
pub struct Channel {
    pub from: u16,
    pub to: u16,
}

// If a test is false, who has to move.
#[derive(Clone, Copy)]
pub enum Mover {
    Sender,
    Receiver,
    NotLinear,
}
