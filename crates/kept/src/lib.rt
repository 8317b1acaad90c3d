// The two numbers that are kept for each channel while processes move: how many messages are in transit, and how many are received but not yet sent. One
// move changes them on one channel alone, by one.
#![tactic(auto)]

ghost use Rattle.std.specs.Prelude.{◌≡◌, cond, ◌||◌, ◌+◌, ◌-◌, eqb, ltb, length, get_or, set};
ghost use Rattle.model.specs.NotYetSent.{move_on};
ghost use Rattle.run.specs.Said.{run_in};
ghost use Rattle.run.specs.Index.{index_size, partner_at, HasSlot};
ghost use Rattle.kept.specs.Kept.{CountsKept, MayMove, Countable};

use model::Event;
use run::index::partner_of;
use run::indexed::Indexed;

// Whether the other end of what state k of process p sends or receives is past a state of its own process. A partner of 0 is nowhere.
fn other_end_past(index: &[u16], p: u16, k: u16, state: u16) -> bool
    requires { (length index.now ≡ index_size) × HasSlot p k }
    ensures { result ≡ (eqb (get_or index.now (partner_at p k) 0) 0 || ltb state (get_or index.now (partner_at p k) 0)) }
{
    let partner = partner_of(index, p, k);
    (partner == 0) | (state < partner)
}

// A message whose other end is past the cut is one more of its own number; else it was of the other number up to now.
fn count_message(past: bool, channel: usize, own: &mut [u16], other: &mut [u16])
    requires { Countable past channel own.old other.old }
    ensures { (own.new ≡ cond past (set own.old channel (get_or own.old channel 0 + 1)) own.old)
        × (other.new ≡ cond past other.old (set other.old channel (get_or other.old channel 0 - 1))) }
{
    if past {
        own[channel] += 1;
        return;
    }
    other[channel] -= 1;
}

// Both numbers of each channel as process p moves into its next state, which the cut doesn't have yet.
pub fn bring_forward(
    run: &Indexed<'_>,
    cut: &[u16],
    p: usize,
    counts: &mut [u16],
    unsent: &mut [u16],
)
    requires { MayMove run.now.run cut.now p × CountsKept (run_in run.now.run) cut.now counts.old unsent.old }
    ensures { CountsKept (run_in run.now.run) (move_on cut.now p) counts.new unsent.new }
{
    let index = run.index;
    let process = p as u16;
    let k = cut[p] + 1;
    let event = run.event(process, k);
    match event {
        Event::Start => {}
        Event::Internal => {}
        Event::Send(message) => {
            let ends = run.channel(message.channel);
            let past = other_end_past(index, process, k, cut[ends.to as usize]);
            count_message(past, message.channel as usize, counts, unsent);
        }
        Event::Receive(message) => {
            let ends = run.channel(message.channel);
            let past = other_end_past(index, process, k, cut[ends.from as usize]);
            count_message(past, message.channel as usize, unsent, counts);
        }
    }
}
