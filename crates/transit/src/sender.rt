// What one state of a channel's sender has in transit.
ghost use Rattle.std.specs.Prelude.{◌≡◌, cond, [], ◌<◌};
ghost use Rattle.std.proofs.Math.Option.{none};
ghost use Rattle.model.specs.Run.{IsState, into, sending};
ghost use Rattle.model.specs.Clause.{some_of, same_z};
ghost use Rattle.model.specs.Cut.{IsCut, add, on_channel, waiting};
ghost use Rattle.record.specs.Record.{head_of};
ghost use Rattle.run.specs.Said.{run_in};
ghost use Rattle.transit.specs.Waiting.{as_held, span_of, OfChannel, SenderThere};

use crate::Span;
use model::{Event, Message};
use run::index::partner_of;
use run::indexed::Indexed;
use states::held::channel_at;

// The message that an event sends on the channel.
fn sent_on(channel: u16, event: Event) -> Option<Message>
    ensures { result ≡ as_held (on_channel channel (sending event)) }
{
    match event {
        Event::Send(message) => (message.channel == channel).then_some(message),
        _ => None,
    }
}

// How far the ends of a channel are at a cut.
pub(crate) fn span_of(run: &Indexed<'_>, cut: &[u16], channel: u16) -> Span
    requires { IsCut (run_in run.now.run) cut.now × (channel < (head_of run.now.run).channels) }
    ensures { (result ≡ span_of (run_in run.now.run) cut.now channel)
        × SenderThere (run_in run.now.run) result }
{
    let ends = channel_at(run.run, channel);
    Span {
        channel,
        from: ends.from,
        sent: cut[ends.from as usize],
        received: cut[ends.to as usize],
    }
}

// Whether what state k of the channel's sender sends is on its way at the cut. A send whose partner is 0 is received nowhere, and one whose partner is past
// the receiver's state only later.
fn is_on_its_way(run: &Indexed<'_>, span: Span, k: u16) -> bool
    requires { OfChannel (run_in run.now.run) span × IsState (run_in run.now.run) span.from k }
    ensures { waiting (run_in run.now.run) span.channel span.received k
        ≡ cond result (on_channel span.channel (sending (into (run_in run.now.run) span.from k))) none }
{
    let partner = partner_of(run.index, span.from, k);
    (partner == 0) | (span.received < partner)
}

// What it has in transit.
#[tactic(auto, unfolding(crate::specs::Waiting::as_held))]
pub(crate) fn waits(run: &Indexed<'_>, span: Span, k: u16) -> Option<Message>
    requires { OfChannel (run_in run.now.run) span × IsState (run_in run.now.run) span.from k }
    ensures { result ≡ as_held (waiting (run_in run.now.run) span.channel span.received k) }
{
    if !is_on_its_way(run, span, k) {
        return None;
    }
    sent_on(span.channel, run.event(span.from, k))
}

// Whether an event sends a message with this stamp on the channel.
fn sends_with(channel: u16, event: Event, stamp: i32) -> bool
    ensures { result ≡ some_of (λ m. same_z m.stamp stamp) (add (on_channel channel (sending event)) []) }
{
    match event {
        Event::Send(message) => (message.channel == channel) & (message.stamp == stamp),
        _ => false,
    }
}

// Whether it has a message with this stamp in transit, asked of the event itself: a test of the message that `waits` hands out costs a quarter more.
pub(crate) fn waits_with(run: &Indexed<'_>, span: Span, k: u16, stamp: i32) -> bool
    requires { OfChannel (run_in run.now.run) span × IsState (run_in run.now.run) span.from k }
    ensures { result ≡ some_of (λ m. same_z m.stamp stamp) (add (waiting (run_in run.now.run) span.channel span.received k) []) }
{
    is_on_its_way(run, span, k) && sends_with(span.channel, run.event(span.from, k), stamp)
}
