// What is in transit on a channel at a cut: the messages sent up to it and not received up to it. `sender` says what one state of the sender has in transit,
// `scan` goes over all of them.
#![tactic(auto)]

pub mod scan;
mod sender;

// What a channel that isn't empty has in transit: so many messages, with the lowest of their stamps.
#[derive(Clone, Copy)]
pub struct Load {
    pub count: usize,
    pub lowest: i32,
}

// Where the messages of a channel are looked for at a cut: how far its sender is, and how far its receiver.
#[derive(Clone, Copy)]
pub struct Span {
    pub channel: u16,
    pub from: u16,
    pub sent: u16,
    pub received: u16,
}
